//! A remark at a place of a text, and its line.

ghost use Rattle.std.specs.Prelude.{◌≡◌, ◌++◌, OnOk, flat_map};
ghost use Rattle.tow_notes.specs.Notes as model;
ghost use Rattle.tow_notes.specs.declared.note.Note.{Note};

use crate::remark::Remark;
use itoa::Buffer;
use std::alloc::AllocError;
use tow_explain::{Row, position, put_row};
use tow_model::Bytes;

/// A remark at a place of a text, and what it is about.
#[derive(Drop)]
pub struct Note {
    /// An offset in bytes.
    pub place: usize,
    pub remark: Remark,
    pub subject: Bytes,
}

/// Appends the line of each note on the text.
pub fn put_notes(out: &mut Vec<u8>, text: &[u8], notes: &[Note]) -> Result<(), AllocError>
    ensures { OnOk result (out.new.items
        ≡ out.old.items ++ flat_map (λ (n : Note). model.note_line text.now n) notes.now) }
{
    for note in notes {
        put_note(out, text, note)?;
    }
    Ok(())
}

/// Appends the line of a note on the text.
#[tactic(auto, unfolding(crate::specs::Notes::note_line))]
fn put_note(out: &mut Vec<u8>, text: &[u8], note: &Note) -> Result<(), AllocError>
    ensures { OnOk result (out.new.items ≡ out.old.items ++ model.note_line text.now note.now) }
{
    let (line, column) = position(text, note.place);
    out.extend_from_slice(b"note: ")?;
    out.extend_from_slice(Buffer::new().format(line).as_bytes())?;
    out.extend_from_slice(b":")?;
    out.extend_from_slice(Buffer::new().format(column).as_bytes())?;
    out.extend_from_slice(b": ")?;
    out.extend_from_slice(note.remark.words().as_bytes())?;
    out.extend_from_slice(b": `")?;
    put_row(out, Row::Text, note.subject.as_slice())?;
    out.extend_from_slice(b"`\n")?;
    Ok(())
}
