//! The value of a date field (RFC 9110, section 5.6.7).

ghost use Rattle.std.specs.Prelude.{◌≡◌, ◌<◌, IfOk};
ghost use Rattle.tow_model.specs.Dates.{IsDate, date_of, first_undated};

use httpdate::HttpDate;
use std::alloc::Global;
use tow_model::{Bytes, NoMemory};

/// The date field's value at a second since 1970 (RFC 9110, section 5.6.7). Takes memory for its 29 bytes.
pub fn date(alloc: Global, second: u64) -> Result<Bytes, NoMemory>
    requires { second < first_undated }
    ensures { IfOk result (λ bytes. bytes ≡ date_of second) }
{
    let bytes = Bytes::from_slice(alloc, &date_bytes(second))?;
    Ok(bytes)
}

fn date_bytes(second: u64) -> [u8; 29]
    requires { second < first_undated }
    ensures { IsDate second result }
{
    match HttpDate::from_unix_secs(second) {
        Ok(date) => date.to_bytes(),
        Err(_) => unreachable!(),
    }
}
