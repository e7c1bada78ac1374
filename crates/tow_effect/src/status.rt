//! The status of an answer.

ghost use Rattle.std.specs.Prelude.{◌≡◌, ◌≢◌, ◌<◌, ◌-◌, IsTrue, option_map};
ghost use Rattle.std.specs.Char.{is_ascii_digit};
ghost use Rattle.tow_semantics.specs.Writing as model;
ghost use Rattle.tow_effect.specs.Writes.{Writes};

use crate::outcome::Assign;
use tow_model::Record;

/// Sets the status that the text writes. Takes no memory.
pub(crate) fn write_status(text: &[u8], exchange: &mut Record) -> Assign
    ensures writes { Writes (option_map (λ n. record exchange.old { status = n })
        (model.read_status text.now)) result exchange.old exchange.new }
    ensures plain { result ≢ Assign.NoMemory }
{
    match read_status(text) {
        Some(status) => {
            exchange.status = status;
            Assign::Assigned
        }
        None => Assign::BadValue,
    }
}

/// The status of three digits, where a text may set it.
fn read_status(text: &[u8]) -> Option<u16>
    ensures { result ≡ model.read_status text.now }
{
    let [hundreds, tens, ones] = text else {
        return None;
    };
    if !hundreds.is_ascii_digit() || !tens.is_ascii_digit() || !ones.is_ascii_digit() {
        return None;
    }
    let status = 100 * digit(*hundreds) + 10 * digit(*tens) + digit(*ones);
    if is_status(status) {
        Some(status)
    } else {
        None
    }
}

/// What a digit stands for.
fn digit(digit: u8) -> u16
    requires { IsTrue (is_ascii_digit digit) }
    ensures value { result ≡ digit - 48 }
    ensures small { result < 10 }
{
    u16::from(digit - b'0')
}

/// Whether a text may set the status: 200 to 599 other than 205, whose answer may have no content at all (RFC 9110, section
/// 15.3.6).
fn is_status(status: u16) -> bool
    ensures { result ≡ model.is_status status }
{
    (200..=599).contains(&status) && status != 205
}
