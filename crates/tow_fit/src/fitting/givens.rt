//! What the parameters of a call stand for, in the order of the table.

ghost use Rattle.std.specs.Prelude.{◌≡◌, ◌<◌, ◌∷◌, [], ℕ, List, Ok, Some, None, false, true, bytes_eq, length, map, option_map, slice_index_or, IfNone, IfSome};
ghost use Rattle.std.specs.Map.{lookup};
ghost use Rattle.tow_language.specs.declared.kind.Kind.TheVariants.{BadParameter};
ghost use Rattle.tow_language.specs.declared.table.Given.TheVariants as givens;
ghost use Rattle.tow_language.specs.Fit as fits;
ghost use Rattle.tow_language.specs.Table as table;
ghost use Rattle.tow_language.specs.Templates as templates;
ghost use Rattle.tow_fit.specs.declared.fitting.parameters.Found.{Found};
ghost use Rattle.tow_fit.specs.Calls.{parameters_of};
ghost use Rattle.tow_language.specs.Signatures.{parameter_as, standard_of};
ghost use Rattle.tow_fit.specs.Fitting.{Meets, MeetsBy, found_as, rows_of};
ghost use Rattle.tow_fit.specs.Making.{are_apart, filled_one, givens_in, givens_list};

use crate::call::WrittenParameters;
use crate::fault::ParseFault;
use crate::fitting::bytes::is_name;
use crate::fitting::parameters::{Found, found_in};
use crate::fitting::rows::Rows;
use crate::fitting::templates::{COMMON, template_at};
use std::alloc::Global;
use tow_language::{Given, Parameter, Standard};
use tow_model::{Attribute, List, Piece};

/// What up to three parameters stand for.
#[derive(Debug, Drop)]
pub(crate) enum Givens {
    None,
    One(Given),
    Two(Given, Given),
    Three(Given, Given, Given),
}

/// What the parameters of a call stand for, with the defaults of those that are not written; `place` is that of its name.
/// Takes memory for them.
pub(crate) fn givens_of(
    alloc: Global,
    rows: Rows,
    place: usize,
    parameters: WrittenParameters,
) -> Result<Givens, ParseFault>
    requires { are_apart (rows_of rows) ≡ true }
    ensures { MeetsBy givens_list result (givens_in (rows_of rows) place (parameters_of parameters)) }
{
    let found = found_in(alloc, rows, parameters)?;
    filled(alloc, rows, found, place)
}

/// The parameters in the table's order.
fn filled(alloc: Global, rows: Rows, found: List<Found>, place: usize) -> Result<Givens, ParseFault>
    requires { are_apart (rows_of rows) ≡ true }
    ensures { MeetsBy givens_list result (fits.filled (rows_of rows) (map found_as found) place) }
{
    match rows {
        Rows::None => Ok(Givens::None),
        Rows::One(a) => one(alloc, a, found, place),
        Rows::Two(a, b) => two(alloc, a, b, found, place),
        Rows::Three(a, b, c) => three(alloc, a, b, c, found, place),
    }
}

fn one(alloc: Global, a: Parameter, found: List<Found>, place: usize) -> Result<Givens, ParseFault>
    ensures { MeetsBy givens_list result
        (fits.filled (parameter_as a ∷ []) (map found_as found) place) }
{
    let mut found = found.into_vec();
    let first = taken(alloc, a, &mut found, place)?;
    Ok(Givens::One(first))
}

fn two(
    alloc: Global,
    a: Parameter,
    b: Parameter,
    found: List<Found>,
    place: usize,
) -> Result<Givens, ParseFault>
    requires { are_apart (parameter_as a ∷ parameter_as b ∷ []) ≡ true }
    ensures { MeetsBy givens_list result
        (fits.filled (parameter_as a ∷ parameter_as b ∷ []) (map found_as found) place) }
{
    let mut found = found.into_vec();
    let first = taken(alloc, a, &mut found, place)?;
    let second = taken(alloc, b, &mut found, place)?;
    Ok(Givens::Two(first, second))
}

fn three(
    alloc: Global,
    a: Parameter,
    b: Parameter,
    c: Parameter,
    found: List<Found>,
    place: usize,
) -> Result<Givens, ParseFault>
    requires { are_apart (parameter_as a ∷ parameter_as b ∷ parameter_as c ∷ []) ≡ true }
    ensures { MeetsBy givens_list result
        (fits.filled (parameter_as a ∷ parameter_as b ∷ parameter_as c ∷ []) (map found_as found)
        place) }
{
    let mut found = found.into_vec();
    let first = taken(alloc, a, &mut found, place)?;
    let second = taken(alloc, b, &mut found, place)?;
    let third = taken(alloc, c, &mut found, place)?;
    Ok(Givens::Three(first, second, third))
}

/// What the parameter stands for, which is taken from what was found, or is its default.
fn taken(
    alloc: Global,
    row: Parameter,
    found: &mut Vec<Found>,
    place: usize,
) -> Result<Given, ParseFault>
    ensures value { Meets result (filled_one (parameter_as row) (map found_as found.old.items)
        place) }
    ensures others { (name : List ℕ) → bytes_eq name row.name.now ≡ false →
        lookup (bytes_eq name) (map found_as found.new.items)
        ≡ lookup (bytes_eq name) (map found_as found.old.items) }
{
    match place_in(found.as_slice(), row.name) {
        Some(at) => {
            let Found { given, .. } = found.remove(at);
            Ok(given)
        }
        None => standard_given(alloc, row.standard, place),
    }
}

/// Where the parameter of this name stands among those that were found.
fn place_in(found: &[Found], name: &[u8]) -> Option<usize>
    ensures within { IfSome result (λ at. at < length found.now) }
    ensures named { (d : Found)
        → IfSome result (λ at. bytes_eq name.now (slice_index_or found.now at d).row.name.now
        ≡ true) }
    ensures value { (d : Found) → IfSome result (λ at.
        lookup (bytes_eq name.now) (map found_as found.now)
        ≡ Some (slice_index_or found.now at d).given) }
    ensures none { IfNone result (lookup (bytes_eq name.now) (map found_as found.now) ≡ None) }
{
    for (at, other) in found.iter().enumerate() {
        if is_name(name, other.row.name) {
            return Some(at);
        }
    }
    None
}

/// What stands for a parameter that is not written, where it may be left out.
fn standard_given(
    alloc: Global,
    standard: Option<Standard>,
    place: usize,
) -> Result<Given, ParseFault>
    ensures { Meets result (fits.wanted (option_map standard_of standard) BadParameter place) }
{
    match standard {
        Some(Standard::ThePath) => the_path(alloc),
        Some(Standard::Truth(truth)) => Ok(Given::Truth(truth)),
        Some(Standard::Common) => common(alloc, place),
        None => Err(ParseFault::BadParameter(place)),
    }
}

/// The template `%R`.
fn the_path(alloc: Global) -> Result<Given, ParseFault>
    ensures { Meets result (Ok table.the_path) }
{
    let mut pieces = List::new(alloc);
    pieces.push(Piece::Value(Attribute::RelativePath))?;
    Ok(Given::Template(pieces))
}

/// The format `common`.
fn common(alloc: Global, place: usize) -> Result<Given, ParseFault>
    ensures { Meets result (Ok (givens.Template templates.common)) }
{
    let format = template_at(alloc, place, COMMON)?;
    Ok(Given::Template(format))
}
