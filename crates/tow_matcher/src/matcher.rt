//! The first of many rows that holds for a path.

ghost use Rattle.std.specs.Prelude.{
  ◌≡◌,
  ◌<◌,
  ◌≤◌,
  ◌↔◌,
  IfOk,
  IfSome,
  IsTrue,
  length,
  slice_index,
};
ghost use Rattle.tow_model.specs.Paths.{slash};
ghost use Rattle.tow_matcher.specs.Firsts.{IsFirst, earlier_of, first_row};
ghost use Rattle.tow_matcher.specs.Borders.{ArePrefixesBelow, HasPath};

use crate::row::Row;
use crate::table::{first_of, table_of};
use std::alloc::Global;
use std::marker::Model;
use tow_model::{List, NoMemory};

/// Rows, in an order in which the first that holds for a path is found by searches. Contracts see the list of the rows.
#[derive(Debug, Drop)]
pub struct Matcher {
    rows: List<Row>,
    order: Vec<usize>,
    reach: usize,
}

impl Model for Matcher {
    ghost use Rattle.std.specs.Prelude.{List};
    ghost use Rattle.tow_matcher.specs.declared.row.Row.{Row};
    ghost use Rattle.tow_matcher.specs.Keys.{IsTable};
    ghost use Rattle.tow_matcher.specs.Borders.{ArePrefixesBelow};

    ghost Value = { List Row };

    ghost view = { λ m. m.rows };

    ghost invariant = { λ m. IsTable m.rows m.order.items × ArePrefixesBelow m.reach m.rows };
}

/// One more than the length in bytes of the longest prefix, and 0 where no row is a prefix.
fn reach_of(rows: &[Row]) -> usize
    ensures { ArePrefixesBelow result rows.now }
{
    let mut reach = 0;
    for row in rows {
        if row.prefix {
            reach = (row.path.as_slice().len() + 1).max(reach);
        }
    }
    reach
}

/// Whether a prefix of the path may end at the place, which is before a `/`.
fn is_border(path: &[u8], place: usize) -> bool
    requires { place < length path.now }
    ensures { IsTrue result ↔ (slice_index path.now place ≡ slash) }
{
    path[place] == b'/'
}

/// The lower of two numbers that may be missing.
fn earlier(a: Option<usize>, b: Option<usize>) -> Option<usize>
    ensures { result ≡ earlier_of a b }
{
    match (a, b) {
        (Some(a), Some(b)) => Some(a.min(b)),
        (Some(a), None) => Some(a),
        (None, b) => b,
    }
}

impl Matcher {
    /// Of rows that are numbered from 0. Takes memory for eight bytes a row; where there is none, the rows are gone.
    pub fn new(alloc: Global, rows: List<Row>) -> Result<Matcher, NoMemory>
        ensures { IfOk result (λ m. m ≡ rows) }
    {
        let order = table_of(alloc, rows.as_slice())?;
        let reach = reach_of(rows.as_slice());
        Ok(Matcher { rows, order, reach })
    }

    /// The number of the first row from the number `from` on that holds for the path. Takes no memory. Costs one search in
    /// the table among the rows that are no prefixes, and among the prefixes one for the whole path if no longer than the
    /// longest prefix, and one for each `/` of the path that is not behind the length of the longest prefix: none where no
    /// row is a prefix.
    pub fn first(&self, path: &[u8], from: usize) -> Option<usize>
        ensures row { result ≡ first_row self.now path.now from }
        ensures within { IfSome result (λ n. (from ≤ n) × (n < length self.now)) }
    {
        let rows = self.rows.as_slice();
        let order = self.order.as_slice();
        let mut best = self.first_of_path(path, from);
        for end in 0..path.len().min(self.reach) {
            if is_border(path, end) {
                best = earlier(best, first_of(rows, order, true, &path[..end], from));
            }
        }
        best
    }

    /// The number of the first row from the number `from` on that has this path, of either kind. No prefix has one that is
    /// longer than the longest.
    fn first_of_path(&self, path: &[u8], from: usize) -> Option<usize>
        ensures { IsFirst (HasPath path.now) self.now from result }
    {
        let rows = self.rows.as_slice();
        let order = self.order.as_slice();
        let exact = first_of(rows, order, false, path, from);
        if path.len() < self.reach {
            earlier(exact, first_of(rows, order, true, path, from))
        } else {
            exact
        }
    }
}
