//! A run: tests of literal paths, each where the one before it leads to when it fails.

ghost use Rattle.std.specs.Prelude.{◌≡◌, ◌++◌, [], IfOk, OnOk, length, map};
ghost use Rattle.tow_program.specs.Skips.{row_of};
ghost use Rattle.tow_program.specs.Tables.{hop_in};

use std::alloc::Global;
use tow_matcher::{Matcher, Row};
use tow_model::{Bytes, List, NoMemory};

/// Where a look-up leads.
#[derive(Clone, Copy)]
pub(crate) enum Hop {
    /// To this place, from which nothing is skipped.
    Rests(usize),
    /// To this place, from which more may be skipped.
    Goes(usize),
}

/// A run, with a row for each path of its tests, in their order.
#[derive(Drop)]
pub(crate) struct Run {
    matcher: Matcher,
    // for each row the place of its test
    places: List<usize>,
    // the place that the last test leads to when it fails
    behind: usize,
}

impl Run {
    /// Where the path leads to from the test on that has this row first. Takes no memory.
    pub(crate) fn hop(&self, path: &[u8], row: usize) -> Hop
        ensures { result ≡ hop_in self.now.matcher self.now.places self.now.behind path.now row }
    {
        match self.matcher.first(path, row) {
            None => Hop::Goes(self.behind),
            Some(number) => match self.places.get(number) {
                None => Hop::Goes(self.behind),
                Some(place) => Hop::Rests(*place),
            },
        }
    }
}

/// The rows of a run that grows.
#[derive(Drop)]
pub(crate) struct Rows {
    rows: List<Row>,
    places: List<usize>,
}

impl Rows {
    /// No row. Takes no memory.
    pub(crate) fn new(alloc: Global) -> Rows
        ensures rows { result.rows ≡ [] }
        ensures places { result.places ≡ [] }
    {
        Rows {
            rows: List::new(alloc),
            places: List::new(alloc),
        }
    }

    /// How many rows there are. Takes no memory.
    pub(crate) fn len(&self) -> usize
        ensures { result ≡ length self.now.rows }
    {
        self.rows.len()
    }

    /// Adds the rows of the test at this place. Takes memory for them and for copies of the paths.
    pub(crate) fn put(
        &mut self,
        alloc: Global,
        paths: &[Bytes],
        prefix: bool,
        place: usize,
    ) -> Result<(), NoMemory>
        ensures rows { OnOk result (self.new.rows ≡ self.old.rows ++ map (row_of prefix) paths.now) }
        ensures places { OnOk result (self.new.places
            ≡ self.old.places ++ map (λ path. place) paths.now) }
    {
        for path in paths {
            let path = Bytes::from_slice(alloc, path.as_slice())?;
            self.rows.push(Row { path, prefix })?;
            self.places.push(place)?;
        }
        Ok(())
    }

    /// The run, which leads to the place `behind`. Takes memory to sort the rows.
    pub(crate) fn into_run(self, alloc: Global, behind: usize) -> Result<Run, NoMemory>
        ensures { IfOk result (λ run. run
            ≡ record { matcher = self.rows; places = self.places; behind = behind }) }
    {
        let Rows { rows, places } = self;
        let matcher = Matcher::new(alloc, rows)?;
        Ok(Run {
            matcher,
            places,
            behind,
        })
    }
}
