//! The parameters of a call, in the order in which they are written.

ghost use Rattle.std.specs.Prelude.{◌≡◌, [], None, Some, bytes_eq, find, if◌then◌else◌, map, option_map};
ghost use Rattle.std.specs.List.{list_any};
ghost use Rattle.tow_language.specs.Fit as fits;
ghost use Rattle.tow_language.specs.Table as table;
ghost use Rattle.tow_fit.specs.Calls.{pair_of, parameters_of, value_of};
ghost use Rattle.tow_language.specs.Signatures.{parameter_as};
ghost use Rattle.tow_fit.specs.Fitting.{MeetsBy, found_as, found_in, next_found, rows_of};

use crate::call::{WrittenPair, WrittenParameters};
use crate::fault::ParseFault;
use crate::fitting::bytes::is_name;
use crate::fitting::rows::Rows;
use crate::fitting::unnamed::found_first;
use crate::fitting::values::given_of;
use std::alloc::Global;
use tow_language::{Given, Parameter};
use tow_model::List;

/// A parameter that is written, and what it stands for.
#[derive(Debug, Drop)]
pub(crate) struct Found {
    pub(crate) row: Parameter,
    pub(crate) given: Given,
}

/// What the parameters of a call stand for that are written. Takes memory for them.
pub(crate) fn found_in(
    alloc: Global,
    rows: Rows,
    parameters: WrittenParameters,
) -> Result<List<Found>, ParseFault>
    ensures { MeetsBy (map found_as) result (found_in (rows_of rows) (parameters_of parameters)) }
{
    match parameters {
        WrittenParameters::Named(pairs) => found_of(alloc, rows, pairs),
        WrittenParameters::Unnamed(values) => found_first(alloc, rows, values),
    }
}

/// What the parameters with these names stand for.
fn found_of(alloc: Global, rows: Rows, pairs: List<WrittenPair>) -> Result<List<Found>, ParseFault>
    ensures { MeetsBy (map found_as) result (fits.found_of (rows_of rows) [] (map pair_of pairs)) }
{
    let mut found = List::new(alloc);
    for pair in pairs.into_vec() {
        let next = next_found(alloc, rows, found.as_slice(), pair)?;
        found.push(next)?;
    }
    Ok(found)
}

/// What one more parameter stands for, behind those that were found.
fn next_found(
    alloc: Global,
    rows: Rows,
    found: &[Found],
    pair: WrittenPair,
) -> Result<Found, ParseFault>
    ensures { MeetsBy found_as result
        (next_found (rows_of rows) (map found_as found.now) (pair_of pair)) }
{
    let WrittenPair { name, value } = pair;
    match unused(rows, found, name.bytes.as_slice()) {
        Some(row) => {
            let given = given_of(alloc, row.shape, value)?;
            Ok(Found { row, given })
        }
        None => Err(ParseFault::BadParameter(name.place)),
    }
}

/// The parameter of this name, unless it was found before.
fn unused(rows: Rows, found: &[Found], name: &[u8]) -> Option<Parameter>
    ensures { option_map parameter_as result
        ≡ fits.unused (rows_of rows) (map found_as found.now) name.now }
{
    if is_found(found, name) {
        None
    } else {
        row_named(rows, name)
    }
}

fn is_found(found: &[Found], name: &[u8]) -> bool
    ensures { result ≡ list_any (λ f. bytes_eq name.now f.row.name.now) found.now }
{
    found.iter().any(|found| is_name(name, found.row.name))
}

/// The first parameter of this name.
fn row_named(rows: Rows, name: &[u8]) -> Option<Parameter>
    ensures { option_map parameter_as result
        ≡ find (λ (q : table.Parameter). bytes_eq q.name name.now) (rows_of rows) }
{
    match rows {
        Rows::None => None,
        Rows::One(a) => if_named(a, name),
        Rows::Two(a, b) => match if_named(a, name) {
            Some(a) => Some(a),
            None => if_named(b, name),
        },
        Rows::Three(a, b, c) => match if_named(a, name) {
            Some(a) => Some(a),
            None => match if_named(b, name) {
                Some(b) => Some(b),
                None => if_named(c, name),
            },
        },
    }
}

/// This parameter, if it has the name.
fn if_named(row: Parameter, name: &[u8]) -> Option<Parameter>
    ensures { option_map parameter_as result
        ≡ (if bytes_eq row.name.now name.now then Some (parameter_as row) else None) }
{
    if is_name(row.name, name) {
        Some(row)
    } else {
        None
    }
}
