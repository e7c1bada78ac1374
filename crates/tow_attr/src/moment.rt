//! A moment as a line of an access log shows it.

ghost use Rattle.std.specs.Prelude.{◌≡◌, ◌<◌, ◌++◌, OnOk};
ghost use Rattle.tow_model.specs.Dates.{IsDate, first_undated, log_date_of};

use httpdate::HttpDate;
use std::alloc::AllocError;

/// Writes `[06/Nov/1994:08:49:37 +0000]`, for a second since 1970.
pub(crate) fn append_moment(out: &mut Vec<u8>, second: u64) -> Result<(), AllocError>
    requires { second < first_undated }
    ensures { OnOk result (out.new.items ≡ out.old.items ++ log_date_of second) }
{
    out.extend_from_slice(&log_date(second))
}

/// The parts of the date field's value in the order of a log.
fn log_date(second: u64) -> [u8; 28]
    requires { second < first_undated }
    ensures { result ≡ log_date_of second }
{
    let [
        _,
        _,
        _,
        _,
        _,
        d0,
        d1,
        _,
        m0,
        m1,
        m2,
        _,
        y0,
        y1,
        y2,
        y3,
        _,
        h0,
        h1,
        _,
        n0,
        n1,
        _,
        s0,
        s1,
        ..
    ] = date(second);
    [
        b'[', d0, d1, b'/', m0, m1, m2, b'/', y0, y1, y2, y3, b':', h0, h1, b':', n0, n1, b':', s0,
        s1, b' ', b'+', b'0', b'0', b'0', b'0', b']',
    ]
}

/// `Sun, 06 Nov 1994 08:49:37 GMT` (RFC 9110, section 5.6.7).
fn date(second: u64) -> [u8; 29]
    requires { second < first_undated }
    ensures { IsDate second result }
{
    match HttpDate::from_unix_secs(second) {
        Ok(date) => date.to_bytes(),
        Err(_) => unreachable!(),
    }
}
