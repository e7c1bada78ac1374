//! for now: the handlers of a text that `ask` does not do yet.

ghost use Rattle.std.specs.Prelude.{◌≡◌, IfOk, List, flat_map};
ghost use Rattle.tow_notes.specs.Notes as model;
ghost use Rattle.tow_notes.specs.declared.note.Note.{Note};

use crate::note::{Note, put_notes};
use crate::remark::Remark;
use std::alloc::{AllocError, Global};
use tow_explain::{Script, Within, surroundings, take_token};
use tow_language::Handler;
use tow_lex::{LexFault, tokens};
use tow_model::{Bytes, NoMemory};

/// The calls of a text for which `ask` refuses it although it has no fault: a line
/// `note: LINE:COLUMN: ..` for each, in the order of the text. Takes memory.
pub fn unbuilt_on(alloc: Global, text: &[u8]) -> Result<Bytes, NoMemory>
    ensures lines { IfOk result (λ told. (notes : List Note)
        × (told ≡ flat_map (λ (n : Note). model.note_line text.now n) notes)) }
{
    let notes = unbuilt_calls(alloc, text)?;
    let mut out = Vec::new(alloc);
    put_notes(&mut out, text, notes.as_slice())?;
    Ok(Bytes::from_vec(out))
}

/// A note for each such call; none if the text has no tokens.
fn unbuilt_calls(alloc: Global, text: &[u8]) -> Result<Vec<Note>, NoMemory> {
    match tokens(alloc, text) {
        Ok(tokens) => {
            let script = Script {
                text,
                tokens: tokens.as_slice(),
            };
            unbuilt_in(alloc, &script)
        }
        Err(LexFault::NoMemory) => Err(NoMemory),
        Err(_fault) => Ok(Vec::new(alloc)),
    }
}

fn unbuilt_in(alloc: Global, script: &Script<'_>) -> Result<Vec<Note>, NoMemory> {
    let mut notes = Vec::new(alloc);
    let mut open = Vec::new(alloc);
    for index in 0..script.tokens.len() {
        let is_call = surroundings(script, open.as_slice()) == Within::List;
        if is_call && is_unbuilt(script.bytes(index)) {
            push(alloc, &mut notes, script, index)?;
        }
        take_token(&mut open, script.kind(index), index)?;
    }
    Ok(notes)
}

/// Appends the note on the call that the token names.
fn push(
    alloc: Global,
    notes: &mut Vec<Note>,
    script: &Script<'_>,
    index: usize,
) -> Result<(), AllocError> {
    notes.push(Note {
        place: script.place(index),
        remark: Remark::Unbuilt,
        subject: Bytes::from_slice(alloc, script.bytes(index))?,
    })?;
    Ok(())
}

/// Whether a handler of this name is not built yet.
fn is_unbuilt(name: &[u8]) -> bool {
    matches!(
        Handler::named(name),
        Some(Handler::RequestLimit | Handler::Resource | Handler::AccessLog | Handler::Echo)
    )
}
