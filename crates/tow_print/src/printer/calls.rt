ghost use Rattle.std.specs.Prelude.{◌≡◌, ◌++◌, OnOk, map, codes, decimal};
ghost use Rattle.tow_language.specs.Printed.{printed_text, printed_template, printed_array};

use super::templates::put_template;
use super::texts::{put_number, put_texts};
use std::alloc::AllocError;
use tow_model::{Bytes, Piece};

/// Appends the front of a call up to its array of texts, this array, and the end of the call.
pub fn put_call_of_texts(
    text: &mut Vec<u8>,
    front: &[u8],
    texts: &[Bytes],
) -> Result<(), AllocError>
    ensures { OnOk result (text.new.items
        ≡ text.old.items
        ++ (front.now ++ (printed_array (map printed_text texts.now) ++ codes ")"))) }
{
    text.extend_from_slice(front)?;
    put_texts(text, texts)?;
    text.extend_from_slice(b")")?;
    Ok(())
}

/// Appends the front of a call up to its last value, a template, this template, and the end of the call.
pub fn put_call_of_template(
    text: &mut Vec<u8>,
    front: &[u8],
    template: &[Piece],
) -> Result<(), AllocError>
    ensures { OnOk result (text.new.items
        ≡ text.old.items ++ (front.now ++ (printed_template template.now ++ codes ")"))) }
{
    text.extend_from_slice(front)?;
    put_template(text, template)?;
    text.extend_from_slice(b")")?;
    Ok(())
}

/// Appends the front of a call up to its number, this number, and the end of the call.
pub fn put_call_of_number(text: &mut Vec<u8>, front: &[u8], number: u32) -> Result<(), AllocError>
    ensures { OnOk result (text.new.items
        ≡ text.old.items ++ (front.now ++ (decimal number ++ codes ")"))) }
{
    text.extend_from_slice(front)?;
    put_number(text, number)?;
    text.extend_from_slice(b")")?;
    Ok(())
}
