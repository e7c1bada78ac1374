//! Values that are a number or a word.

ghost use Rattle.std.specs.Prelude.{◌≡◌, ◌≤◌, ◌<◌, ◌*◌, ◌+◌, ◌-◌, ℕ, true, fold, length};
ghost use Rattle.std.specs.List.{list_all};
ghost use Rattle.std.specs.Char.{is_ascii_digit};
ghost use Rattle.tow_language.specs.Shapes as shapes;

use crate::fitting::bytes::is_name;

/// How many digits a number has at most.
const MOST_DIGITS: usize = 10;

/// The number of one to ten digits, where it is from `low` to `high`.
pub(crate) fn number_of(low: u32, high: u32, text: &[u8]) -> Option<u32>
    ensures { result ≡ shapes.number_of low high text.now }
{
    if text.is_empty() || text.len() > MOST_DIGITS || !are_digits(text) {
        return None;
    }
    let number = value_of(text);
    if number < u64::from(low) || u64::from(high) < number {
        return None;
    }
    u32::try_from(number).ok()
}

/// The status: 200 to 599 other than 205.
pub(crate) fn status_of(text: &[u8]) -> Option<u32>
    ensures { result ≡ shapes.status_of text.now }
{
    match number_of(200, 599, text) {
        Some(205) => None,
        status => status,
    }
}

/// `true` or `false`.
pub(crate) fn truth_of(text: &[u8]) -> Option<bool>
    ensures { result ≡ shapes.truth_of text.now }
{
    if is_name(text, b"true") {
        Some(true)
    } else if is_name(text, b"false") {
        Some(false)
    } else {
        None
    }
}

fn are_digits(text: &[u8]) -> bool
    ensures { result ≡ list_all is_ascii_digit text.now }
{
    text.iter().all(|byte| byte.is_ascii_digit())
}

/// The number that up to ten digits are.
fn value_of(digits: &[u8]) -> u64
    requires few { length digits.now ≤ 10 }
    requires digits { list_all is_ascii_digit digits.now ≡ true }
    ensures { result ≡ fold (λ (m d : ℕ). 10 * m + (d - 48)) 0 digits.now }
{
    let mut number = 0;
    for digit in digits {
        number = 10 * number + u64::from(*digit - b'0');
    }
    number
}
