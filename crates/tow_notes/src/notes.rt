//! What has no fault in a text, and is surely not meant.

ghost use Rattle.std.specs.Prelude.{◌≡◌, IfOk, List, flat_map};
ghost use Rattle.tow_notes.specs.Notes as model;
ghost use Rattle.tow_notes.specs.declared.note.Note.{Note};

use crate::call::{Call, call_at, is_call, remark_on_equals};
use crate::flow::marks_of;
use crate::mark::Mark;
use crate::names::Names;
use crate::note::{Note, put_notes};
use crate::remark::Remark;
use crate::template::{Use, note_attributes};
use crate::value::{remark_on, remark_on_decoded};
use std::alloc::{AllocError, Global};
use tow_explain::{
    Script, Within, is_parameter_name, shape_at, signature_of, spelled, surroundings, take_token,
};
use tow_language::{Shape, TokenKind};
use tow_lex::{LexFault, tokens};
use tow_model::{Bytes, NoMemory};

/// What of a text without a fault is surely not meant: a line `note: LINE:COLUMN: ..` for each, in
/// the order of the text. Lines and columns count from 1, columns in bytes. Takes memory.
pub fn notes_on(alloc: Global, text: &[u8]) -> Result<Bytes, NoMemory>
    ensures lines { IfOk result (λ told. (notes : List Note)
        × (told ≡ flat_map (λ (n : Note). model.note_line text.now n) notes)) }
{
    let notes = all_notes(alloc, text)?;
    let mut out = Vec::new(alloc);
    put_notes(&mut out, text, notes.as_slice())?;
    Ok(Bytes::from_vec(out))
}

/// The notes on a text; none if it has no tokens.
fn all_notes(alloc: Global, text: &[u8]) -> Result<Vec<Note>, NoMemory> {
    match tokens(alloc, text) {
        Ok(tokens) => {
            let script = Script {
                text,
                tokens: tokens.as_slice(),
            };
            notes_in(alloc, &script)
        }
        Err(LexFault::NoMemory) => Err(NoMemory),
        Err(_fault) => Ok(Vec::new(alloc)),
    }
}

/// What is known of a text before its tokens are looked at one by one.
#[derive(Drop)]
struct Known<'a> {
    script: Script<'a>,
    names: Names<'a>,
    marks: Vec<Mark>,
}

fn notes_in(alloc: Global, script: &Script<'_>) -> Result<Vec<Note>, NoMemory> {
    let known = Known {
        script: *script,
        names: Names::of(alloc, script)?,
        marks: marks_of(alloc, script)?,
    };
    let mut notes = Vec::new(alloc);
    let mut open = Vec::new(alloc);
    let mut call = call_at(script, 0);
    for index in 0..script.tokens.len() {
        if is_call(script, index) {
            call = call_at(script, index);
        }
        known.note_token(alloc, &mut notes, index, open.as_slice(), call)?;
        take_token(&mut open, script.kind(index), index)?;
    }
    Ok(notes)
}

impl<'a> Known<'a> {
    /// Appends the notes on a token, before which these are open, and this call is the last one.
    fn note_token(
        &self,
        alloc: Global,
        notes: &mut Vec<Note>,
        index: usize,
        open: &[usize],
        call: Call,
    ) -> Result<(), NoMemory> {
        self.note_mark(alloc, notes, index)?;
        if !matches!(
            self.script.kind(index),
            Some(TokenKind::Word | TokenKind::Quoted)
        ) {
            return Ok(());
        }
        match surroundings(&self.script, open) {
            Within::List | Within::Group => self.note_name(alloc, notes, index)?,
            Within::Call(_name) if !is_parameter_name(&self.script, index) => {
                self.note_value(alloc, notes, index, call, index)?;
            }
            Within::Call(_name) => {}
            Within::Array(_name) => {
                if let [.., brace] = open {
                    self.note_value(alloc, notes, index, call, *brace)?;
                }
            }
        }
        Ok(())
    }

    /// What the walk over the statements says of the token.
    fn mark(&self, index: usize) -> Mark {
        if index < self.marks.len() {
            self.marks[index]
        } else {
            Mark::Plain
        }
    }

    fn note_mark(
        &self,
        alloc: Global,
        notes: &mut Vec<Note>,
        index: usize,
    ) -> Result<(), AllocError> {
        match self.mark(index) {
            Mark::Unreached => { self.push(alloc, notes, index, Remark::NeverReached) }
            Mark::WholeFolder => { self.push(alloc, notes, index, Remark::WholeFolder) }
            Mark::Plain | Mark::AnyPath => Ok(()),
        }
    }

    /// Appends a remark on the text that the token spells.
    fn push(
        &self,
        alloc: Global,
        notes: &mut Vec<Note>,
        index: usize,
        remark: Remark,
    ) -> Result<(), AllocError> {
        notes.push(Note {
            place: self.script.place(index),
            remark,
            subject: Bytes::from_slice(alloc, spelled(&self.script, index))?,
        })?;
        Ok(())
    }

    /// Appends the note on the call that the token names, if there is one.
    fn note_name(
        &self,
        alloc: Global,
        notes: &mut Vec<Note>,
        index: usize,
    ) -> Result<(), AllocError> {
        if !self.script.is_word(index, b"equals") {
            return Ok(());
        }
        match remark_on_equals(&self.script, index) {
            Some(remark) => self.push(alloc, notes, index, remark),
            None => Ok(()),
        }
    }

    /// Appends the notes on a text of a call, in a value that begins at this token.
    fn note_value(
        &self,
        alloc: Global,
        notes: &mut Vec<Note>,
        index: usize,
        call: Call,
        begin: usize,
    ) -> Result<(), NoMemory> {
        if let Some(remark) = self.remark_on_text(index, call, begin) {
            self.push(alloc, notes, index, remark)?;
        }
        if self.has_attributes(call.name, begin) {
            note_attributes(
                alloc,
                notes,
                &self.names,
                self.script.place(index),
                spelled(&self.script, index),
                self.use_in(call),
            )?;
        }
        Ok(())
    }

    /// What is remarked on the text that the token spells, in a value of a call that begins at the
    /// second token.
    fn remark_on_text(&self, index: usize, call: Call, begin: usize) -> Option<Remark> {
        let text = spelled(&self.script, index);
        if call.decoded == Some(begin) {
            return remark_on_decoded(text);
        }
        remark_on(self.script.bytes(call.name), text)
    }

    /// Whether the value that begins at this token may have attributes.
    fn has_attributes(&self, name: usize, begin: usize) -> bool {
        let Some(call) = signature_of(self.script.bytes(name)) else {
            return false;
        };
        matches!(
            shape_at(&self.script, begin, call.parameters),
            Some(Shape::OneTemplate | Shape::Templates | Shape::Format | Shape::Writable)
        )
    }

    /// Where a value of the call stands.
    fn use_in(&self, call: Call) -> Use {
        if !call.is_address {
            Use::Other
        } else if self.mark(call.name) == Mark::AnyPath {
            Use::AnyPath
        } else {
            Use::PlainPath
        }
    }
}
