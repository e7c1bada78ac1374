//! Numbers in decimal.

ghost use Rattle.std.specs.Prelude.{◌≡◌, ◌++◌, OnOk, decimal};
ghost use Rattle.tow_semantics.specs.Values.{dotted};

use itoa::Buffer;
use std::alloc::AllocError;

/// Writes a number in decimal.
pub(crate) fn append_decimal(out: &mut Vec<u8>, number: u64) -> Result<(), AllocError>
    ensures { OnOk result (out.new.items ≡ out.old.items ++ decimal number) }
{
    let mut digits = Buffer::new();
    out.extend_from_slice(digits.format(number).as_bytes())
}

/// Writes an IPv4 address, its four bytes in decimal with dots between them.
pub(crate) fn append_dotted(out: &mut Vec<u8>, address: u32) -> Result<(), AllocError>
    ensures { OnOk result (out.new.items ≡ out.old.items ++ dotted address) }
{
    append_decimal(out, u64::from(address / 0x100_0000))?;
    out.extend_from_slice(b".")?;
    append_decimal(out, u64::from(address / 0x1_0000 % 0x100))?;
    out.extend_from_slice(b".")?;
    append_decimal(out, u64::from(address / 0x100 % 0x100))?;
    out.extend_from_slice(b".")?;
    append_decimal(out, u64::from(address % 0x100))
}
