//! The numbers of the rows in the order of their kind, their path and their number, and the search in it.

ghost use Rattle.std.specs.Prelude.{◌≡◌, ◌↔◌, IfOk, IsTrue};
ghost use Rattle.tow_matcher.specs.Firsts.{HoldsOf, IsFirst};
ghost use Rattle.tow_matcher.specs.Keys.{
  AreNumbers,
  IsOfKey,
  IsPlaceOf,
  IsTable,
  rank_at,
  rank_cmp,
  shown,
  stands_before,
};

use crate::row::Row;
use std::alloc::{AllocError, Global};
use std::cmp::Ordering;

/// What the table is sorted by: the kind, then the path in the order of its bytes, then the number.
#[derive(Drop)]
struct Key<'a> {
    prefix: bool,
    path: &'a [u8],
    number: usize,
}

impl<'a> Key<'a> {
    /// How it stands to the other.
    fn compare(&self, other: &Key<'_>) -> Ordering
        ensures { result ≡ rank_cmp (shown self.now) (shown other.now) }
    {
        match self.prefix.cmp(&other.prefix) {
            Ordering::Equal => match self.path.cmp(&other.path) {
                Ordering::Equal => self.number.cmp(&other.number),
                decided => decided,
            },
            decided => decided,
        }
    }
}

/// The key of the row of this number.
fn key_at(rows: &[Row], number: usize) -> Key<'_>
    ensures { shown result ≡ rank_at rows.now number }
{
    match rows.get(number) {
        Some(row) => Key {
            prefix: row.prefix,
            path: row.path.as_slice(),
            number,
        },
        None => Key {
            prefix: false,
            path: &[],
            number,
        },
    }
}

/// How two rows stand to each other in the table.
fn compare_rows(rows: &[Row], a: usize, b: usize) -> Ordering
    ensures { result ≡ rank_cmp (rank_at rows.now a) (rank_at rows.now b) }
{
    key_at(rows, a).compare(&key_at(rows, b))
}

/// Whether a row stands before the key in the table.
fn is_before(rows: &[Row], number: usize, key: &Key<'_>) -> bool
    ensures { result ≡ stands_before rows.now (shown key.now) number }
{
    key_at(rows, number).compare(key).is_lt()
}

/// The numbers below the count. Takes memory for them.
fn numbers(alloc: Global, count: usize) -> Result<Vec<usize>, AllocError>
    ensures { IfOk result (λ v. AreNumbers count v.items) }
{
    let mut numbers = Vec::with_capacity(alloc, count)?;
    for number in 0..count {
        numbers.push(number)?;
    }
    Ok(numbers)
}

/// The numbers of the rows, sorted. Takes memory for them.
pub(crate) fn table_of(alloc: Global, rows: &[Row]) -> Result<Vec<usize>, AllocError>
    ensures { IfOk result (λ v. IsTable rows.now v.items) }
{
    let mut order = numbers(alloc, rows.len())?;
    order.sort_unstable_by(|a, b| compare_rows(rows, *a, *b));
    Ok(order)
}

/// The place in the table of the first row that does not stand before the key.
fn place_of(rows: &[Row], order: &[usize], key: &Key<'_>) -> usize
    requires { IsTable rows.now order.now }
    ensures { IsPlaceOf rows.now (shown key.now) order.now result }
{
    order.partition_point(|number| is_before(rows, *number, key))
}

/// Whether there is a row of this number, and it is of this kind and this path.
fn is_row_of(rows: &[Row], number: usize, prefix: bool, path: &[u8]) -> bool
    ensures { IsTrue result ↔ HoldsOf (IsOfKey prefix path.now) rows.now number }
{
    match rows.get(number) {
        Some(row) => row.prefix == prefix && row.path.as_slice() == path,
        None => false,
    }
}

/// The least number from `from` on of a row of this kind and this path. Costs one search in the table, and takes no memory.
pub(crate) fn first_of(
    rows: &[Row],
    order: &[usize],
    prefix: bool,
    path: &[u8],
    from: usize,
) -> Option<usize>
    requires { IsTable rows.now order.now }
    ensures { IsFirst (IsOfKey prefix path.now) rows.now from result }
{
    let key = Key {
        prefix,
        path,
        number: from,
    };
    match order.get(place_of(rows, order, &key)) {
        Some(number) => {
            if is_row_of(rows, *number, prefix, path) {
                Some(*number)
            } else {
                None
            }
        }
        None => None,
    }
}
