//! What is noted on the attributes of a value.

use crate::names::Names;
use crate::note::Note;
use crate::remark::Remark;
use crate::value::is;
use std::alloc::{AllocError, Global};
use tow_attr::{Attribute, Piece, TemplateFault, read_template};
use tow_model::{Bytes, NoMemory};

/// Where a value with attributes stands.
#[derive(Clone, Copy, Debug, PartialEq, Eq)]
pub enum Use {
    /// In an address that is answered for any path.
    AnyPath,
    /// In an address that is answered for some plain paths alone.
    PlainPath,
    /// Anywhere else.
    Other,
}

/// Appends the notes on the attributes of the value at a place. Takes memory.
pub fn note_attributes(
    alloc: Global,
    notes: &mut Vec<Note>,
    names: &Names<'_>,
    place: usize,
    value: &[u8],
    used: Use,
) -> Result<(), NoMemory> {
    match read_template(alloc, value) {
        Ok(template) => {
            note_pieces(alloc, notes, names, place, template.as_slice(), used)?;
            Ok(())
        }
        Err(TemplateFault::NoMemory) => Err(NoMemory),
        Err(TemplateFault::BadAttribute(_place)) => Ok(()),
    }
}

fn note_pieces(
    alloc: Global,
    notes: &mut Vec<Note>,
    names: &Names<'_>,
    place: usize,
    pieces: &[Piece],
    used: Use,
) -> Result<(), AllocError> {
    for piece in pieces {
        match piece {
            Piece::Value(Attribute::Context(name)) => {
                note_name(alloc, notes, names, place, name.as_slice(), used)?;
            }
            Piece::Value(Attribute::RelativePath) if used == Use::AnyPath => {
                notes.push(Note {
                    place,
                    remark: Remark::PathInAddress,
                    subject: Bytes::from_slice(alloc, b"%R")?,
                })?;
            }
            Piece::Value(_attribute) => {}
            Piece::Literal(_text) => {}
        }
    }
    Ok(())
}

/// Appends the note on an attribute `${name}`, if there is one.
fn note_name(
    alloc: Global,
    notes: &mut Vec<Note>,
    names: &Names<'_>,
    place: usize,
    name: &[u8],
    used: Use,
) -> Result<(), AllocError> {
    let remark = if !names.binds(name) {
        Remark::UnboundName
    } else if used != Use::Other && is(name, b"remaining") {
        Remark::RemainingInAddress
    } else {
        return Ok(());
    };
    let mut subject = Vec::from_slice(alloc, b"${")?;
    subject.extend_from_slice(name)?;
    subject.push(b'}')?;
    notes.push(Note {
        place,
        remark,
        subject: Bytes::from_vec(subject),
    })?;
    Ok(())
}
