//! Decimal digits and the number that they write.

ghost use Rattle.std.specs.Prelude.{◌≡◌, ◌≤◌, ◌+◌, ◌*◌, ◌-◌, ℕ, IsTrue, fold, min};
ghost use Rattle.std.specs.Char.{digit_value, is_ascii_digit};
ghost use Rattle.std.specs.List.{list_all};
ghost use Rattle.std.specs.Str.Parse.{digits_value};

/// Whether each byte is a decimal digit. Takes no memory.
pub fn are_digits(text: &[u8]) -> bool
    ensures { result ≡ list_all is_ascii_digit text.now }
{
    text.iter().all(|byte| byte.is_ascii_digit())
}

/// The number that the digits write, or `most` if it is greater. No digits are 0. Takes no memory.
pub fn number_up_to(most: u64, digits: &[u8]) -> u64
    requires { IsTrue (list_all is_ascii_digit digits.now) }
    ensures value { result ≡ min (digits_value 10 digits.now) most }
    ensures folded { result ≡ min (fold (λ (n d : ℕ). 10 * n + (d - 48)) 0 digits.now) most }
{
    let mut number = 0;
    for digit in digits {
        number = with_digit(most, number, *digit);
    }
    number
}

/// The number that one digit stands for. Takes no memory.
pub fn digit_value(digit: u8) -> u8
    requires { IsTrue (is_ascii_digit digit) }
    ensures value { result ≡ digit - 48 }
    ensures small { result ≤ 9 }
{
    digit - b'0'
}

/// The number with one more digit, or `most` if that is greater.
fn with_digit(most: u64, number: u64, digit: u8) -> u64
    requires small { number ≤ most }
    requires digit { IsTrue (is_ascii_digit digit) }
    ensures value { result ≡ min (number * 10 + digit_value digit) most }
    ensures folded { result ≡ min (10 * number + (digit - 48)) most }
{
    let longer = number
        .saturating_mul(10)
        .saturating_add(u64::from(digit_value(digit)));
    longer.min(most)
}
