//! The names that a text binds.

use crate::call::{is_call, value_of};
use crate::value::is;
use std::alloc::{AllocError, Global};
use tow_explain::{Script, part, spelled};

/// The names that some call of a text may bind.
#[derive(Drop)]
pub struct Names<'a> {
    /// Those of templates of paths and of `set`.
    written: Vec<&'a [u8]>,
    /// The most groups that a pattern of the text can have; none if it has no pattern.
    groups: Option<usize>,
    /// Whether the text has a `path-prefix`.
    has_prefix: bool,
}

impl<'a> Names<'a> {
    /// The names that the calls of a text bind. Takes memory for them.
    pub fn of(alloc: Global, script: &Script<'a>) -> Result<Names<'a>, AllocError> {
        let mut names = Names {
            written: Vec::new(alloc),
            groups: None,
            has_prefix: false,
        };
        for index in 0..script.tokens.len() {
            if is_call(script, index) {
                names.take_call(script, index)?;
            }
        }
        Ok(names)
    }

    /// Takes the call that this token names.
    fn take_call(&mut self, script: &Script<'a>, name: usize) -> Result<(), AllocError> {
        if script.is_word(name, b"path-prefix") {
            self.has_prefix = true;
        }
        if script.is_word(name, b"regex") {
            let pattern = value_text(script, name, b"pattern");
            self.take_groups(groups_of(pattern));
        }
        if script.is_word(name, b"path-template") {
            self.take_segments(value_text(script, name, b"match"))?;
        }
        if script.is_word(name, b"set") {
            self.take_attribute(value_text(script, name, b"attribute"))?;
        }
        Ok(())
    }

    fn take_groups(&mut self, groups: usize) {
        self.groups = match self.groups {
            Some(before) if before > groups => Some(before),
            _ => Some(groups),
        };
    }

    /// Takes the names in braces of a path.
    fn take_segments(&mut self, path: &'a [u8]) -> Result<(), AllocError> {
        let mut from = 0;
        for at in 0..path.len() {
            if path[at] == b'{' {
                from = at + 1;
            } else if path[at] == b'}' {
                self.written.push(part(path, from, at))?;
            }
        }
        Ok(())
    }

    /// Takes the attribute that a `set` writes.
    fn take_attribute(&mut self, attribute: &'a [u8]) -> Result<(), AllocError> {
        match attribute {
            [b'$', b'{', name @ .., b'}'] => self.written.push(name)?,
            _ => {}
        }
        Ok(())
    }

    /// Whether a call of the text may bind this name.
    pub fn binds(&self, name: &[u8]) -> bool {
        (self.has_prefix && is(name, b"remaining"))
            || self.is_group(name)
            || self.written.iter().any(|written| *written == name)
    }

    fn is_group(&self, name: &[u8]) -> bool {
        match (self.groups, number_of(name)) {
            (Some(groups), Some(number)) => number <= groups,
            _ => false,
        }
    }
}

/// The text of the value of a call's first parameter.
fn value_text<'a>(script: &Script<'a>, name: usize, parameter: &[u8]) -> &'a [u8] {
    match value_of(script, name, parameter, true) {
        Some(value) => spelled(script, value),
        None => &[],
    }
}

/// The most groups that a pattern can have.
fn groups_of(pattern: &[u8]) -> usize {
    pattern.iter().filter(|byte| **byte == b'(').count()
}

/// The number that is spelled without zeros in front, if it is below 100,000.
fn number_of(name: &[u8]) -> Option<usize> {
    if name.is_empty() || name.len() > 5 || (name[0] == b'0' && name.len() > 1) {
        return None;
    }
    let mut number: usize = 0;
    for byte in name {
        if *byte < b'0' || b'9' < *byte {
            return None;
        }
        number = number
            .saturating_mul(10)
            .saturating_add((*byte - b'0') as usize);
    }
    Some(number)
}
