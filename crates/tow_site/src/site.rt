//! What a handlers text is once it compiled.

ghost use Rattle.std.specs.Prelude.{◌≡◌, ◌<◌, ◌↔◌, IsTrue, length, IfOk};
ghost use Rattle.tow_semantics.specs.Listeners.{at_number, bounds_of, formats_of};
ghost use Rattle.tow_pred.specs.Numbering.{IsNumbered};
ghost use Rattle.tow_program.specs.Programs.{program_of};
ghost use Rattle.tow_site.specs.Compiled.{pattern_texts};

use std::marker::Model;
use tow_model::{Bound, List, NoMemory, Template, Tree};
use tow_pred::Tests;
use tow_program::Program;

/// A handlers text that compiled. Contracts see its tree and the offsets of its patterns' values. Requests are walked by
/// its program.
#[derive(Drop)]
pub struct Site {
    tree: Tree,
    program: Program,
    patterns: List<usize>,
    tests: Tests,
    statements: u32,
}

impl Model for Site {
    ghost use Rattle.std.specs.Prelude.{length, ◌≡◌};
    ghost use Rattle.tow_pred.specs.Numbering.{IsNumbered};
    ghost use Rattle.tow_program.specs.Programs.{program_of};
    ghost use Rattle.tow_site.specs.Compiled.{SiteData, site_code, pattern_texts};

    ghost Value = { SiteData };

    ghost coded = { site_code };

    ghost view = { λ s. record { tree = s.tree; patterns = s.patterns } };

    ghost invariant = { λ s. (s.statements ≡ length s.tree) × (s.tests ≡ pattern_texts s.tree)
        × IsNumbered s.tree × (s.program ≡ program_of s.tree) };
}

impl Site {
    /// The site of a tree with its program, whose patterns were built; none if its statements are too many to be
    /// numbered.
    pub(crate) fn new(
        tree: Tree,
        program: Program,
        patterns: List<usize>,
        tests: Tests,
    ) -> Result<Site, NoMemory>
        requires program { program ≡ program_of tree }
        requires tests { tests ≡ pattern_texts tree }
        requires numbered { IsNumbered tree }
        ensures tree { IfOk result (λ s. s.tree ≡ tree) }
        ensures patterns { IfOk result (λ s. s.patterns ≡ patterns) }
    {
        let Ok(statements) = u32::try_from(tree.len()) else {
            return Err(NoMemory);
        };
        Ok(Site {
            tree,
            program,
            patterns,
            tests,
            statements,
        })
    }

    /// The statements of the text's outermost list. The regex tests in them are numbered 0, 1, .. in the order of the text.
    pub fn tree(&self) -> &Tree
        ensures tree { result.now ≡ self.now.tree }
        ensures numbered { IsNumbered self.now.tree }
    {
        &self.tree
    }

    /// How many statements the text's outermost list has. Takes no memory.
    pub fn statements(&self) -> u32
        ensures { result ≡ length self.now.tree }
    {
        self.statements
    }

    /// The built patterns of the tree.
    pub fn tests(&self) -> &Tests
        ensures { result.now ≡ pattern_texts self.now.tree }
    {
        &self.tests
    }

    /// The program of the text. Takes no memory.
    pub fn program(&self) -> &Program
        ensures program { result.now ≡ program_of self.now.tree }
        ensures numbered { IsNumbered self.now.tree }
    {
        &self.program
    }

    /// The limits of the text, by their numbers. Takes no memory.
    pub fn limits(&self) -> &List<Bound>
        ensures { result.now ≡ bounds_of self.now.tree }
    {
        self.program.limits()
    }

    /// Whether the text has an access log of this number, from 0. Takes no memory.
    pub fn has_log(&self, number: u32) -> bool
        ensures { IsTrue result ↔ (number < length (formats_of self.now.tree)) }
    {
        self.program.format(number as usize).is_some()
    }

    /// The format of the access log of this number, in the order of the text from 0, which the text has. Takes no memory.
    pub fn format(&self, number: u32) -> &Template
        requires { number < length (formats_of self.now.tree) }
        ensures { result.now ≡ at_number number (formats_of self.now.tree) }
    {
        match self.program.format(number as usize) {
            Some(format) => format,
            None => unreachable!(),
        }
    }

    /// The offset of each pattern's value, in the order of the text.
    pub fn pattern_places(&self) -> &[usize]
        ensures { result.now ≡ self.now.patterns }
    {
        self.patterns.as_slice()
    }
}
