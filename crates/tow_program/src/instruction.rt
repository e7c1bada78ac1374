//! One instruction of a program.

ghost use Rattle.std.specs.Prelude.{◌≡◌, option_map};
ghost use Rattle.std.specs.Option.{option_copied};
ghost use Rattle.tow_program.specs.Actions.{bound_in, format_in};
ghost use Rattle.tow_program.specs.Skips.{alternatives_in, shown};

use tow_model::{Action, Bound, Bytes, Template, Test};

/// An instruction. Where it jumps, it passes over so many of the instructions that follow it.
#[derive(Debug, Drop)]
pub enum Instruction {
    /// Passes over `holds` instructions where the test holds, and else over `fails`.
    Ask {
        test: Test,
        holds: usize,
        fails: usize,
    },
    Do(Action),
    Skip(usize),
}

/// A test of literal paths alone.
#[derive(Clone, Copy)]
pub(crate) struct Literals<'a> {
    pub(crate) paths: &'a [Bytes],
    /// Whether they are prefixes.
    pub(crate) prefix: bool,
    /// How many instructions it passes over where it fails.
    pub(crate) fails: usize,
}

impl Instruction {
    /// Its literal paths, if it asks for nothing else. Takes no memory.
    pub(crate) fn literals(&self) -> Option<Literals<'_>>
        ensures { option_map shown result ≡ alternatives_in self.now }
    {
        let Instruction::Ask { test, fails, .. } = self else {
            return None;
        };
        match test {
            Test::Path(paths) => Some(Literals {
                paths: paths.as_slice(),
                prefix: false,
                fails: *fails,
            }),
            Test::Prefix(paths) => Some(Literals {
                paths: paths.as_slice(),
                prefix: true,
                fails: *fails,
            }),
            _ => None,
        }
    }

    /// The format of the access log that it adds, if it adds one. Takes no memory.
    pub(crate) fn format(&self) -> Option<&Template>
        ensures { option_copied result ≡ format_in self.now }
    {
        if let Instruction::Do(Action::AccessLog { format, .. }) = self {
            Some(format)
        } else {
            None
        }
    }

    /// The limit that it enters, if it enters one. Takes no memory.
    pub(crate) fn bound(&self) -> Option<Bound>
        ensures { result ≡ bound_in self.now }
    {
        if let Instruction::Do(Action::RequestLimit { most, .. }) = self {
            Some(Bound { most: *most })
        } else {
            None
        }
    }
}
