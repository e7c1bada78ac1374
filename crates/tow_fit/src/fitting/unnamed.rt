//! Parameters without names.

ghost use Rattle.std.specs.Prelude.{◌≡◌, map, option_map, slice_get};
ghost use Rattle.tow_language.specs.Fit as fits;
ghost use Rattle.tow_language.specs.Raw.{unnamed};
ghost use Rattle.tow_language.specs.Table as table;
ghost use Rattle.tow_fit.specs.Calls.{value_of};
ghost use Rattle.tow_language.specs.Signatures.{parameter_as};
ghost use Rattle.tow_fit.specs.Fitting.{MeetsBy, found_as, found_at, found_in, none_taken, one_value, rows_of};

use crate::call::WrittenValue;
use crate::fault::ParseFault;
use crate::fitting::parameters::Found;
use crate::fitting::rows::Rows;
use crate::fitting::texts::place_of;
use crate::fitting::values::given_of;
use std::alloc::Global;
use tow_language::{Parameter, Shape};
use tow_model::List;

/// What the values stand for as the first parameter. Takes memory for it.
pub(crate) fn found_first(
    alloc: Global,
    rows: Rows,
    values: List<WrittenValue>,
) -> Result<List<Found>, ParseFault>
    ensures { MeetsBy (map found_as) result
        (found_in (rows_of rows) (unnamed (map value_of values))) }
{
    match first_row(rows) {
        Some(row) => found_at(alloc, row, values),
        None => none_taken(alloc, values.as_slice()),
    }
}

fn first_row(rows: Rows) -> Option<Parameter>
    ensures { option_map parameter_as result ≡ slice_get (rows_of rows) 0 }
{
    match rows {
        Rows::None => None,
        Rows::One(a) | Rows::Two(a, _) | Rows::Three(a, _, _) => Some(a),
    }
}

/// What the values stand for where there is no parameter.
fn none_taken(alloc: Global, values: &[WrittenValue]) -> Result<List<Found>, ParseFault>
    ensures { MeetsBy (map found_as) result (none_taken (map value_of values.now)) }
{
    if values.is_empty() {
        return Ok(List::new(alloc));
    }
    Err(ParseFault::BadParameter(place_of(&values[0])))
}

/// What the values stand for as this parameter.
fn found_at(
    alloc: Global,
    row: Parameter,
    values: List<WrittenValue>,
) -> Result<List<Found>, ParseFault>
    ensures { MeetsBy (map found_as) result (found_at (parameter_as row) (map value_of values)) }
{
    let mut found = List::new(alloc);
    if let Some(value) = one_value(alloc, row.shape, values)? {
        let given = given_of(alloc, row.shape, value)?;
        found.push(Found { row, given })?;
    }
    Ok(found)
}

/// The values as one, where there are any.
fn one_value(
    alloc: Global,
    shape: Shape,
    values: List<WrittenValue>,
) -> Result<Option<WrittenValue>, ParseFault>
    ensures { MeetsBy (option_map value_of) result (one_value shape (map value_of values)) }
{
    let mut values = values.into_vec();
    if values.len() < 2 {
        return Ok(values.pop());
    }
    if !takes_array(shape) {
        return Err(ParseFault::BadParameter(place_of(&values[1])));
    }
    let place = place_of(&values[0]);
    Ok(Some(gathered(alloc, place, values)?))
}

/// Whether a parameter of this shape takes an array.
fn takes_array(shape: Shape) -> bool
    ensures { result ≡ table.takes_array shape }
{
    matches!(
        shape,
        Shape::Texts | Shape::Paths | Shape::Prefixes | Shape::Tokens | Shape::Templates
    )
}

/// Several texts as one array, where the first stands. Takes memory for it.
fn gathered(
    alloc: Global,
    place: usize,
    values: Vec<WrittenValue>,
) -> Result<WrittenValue, ParseFault>
    ensures { MeetsBy value_of result (fits.gathered place (map value_of values.items)) }
{
    let mut texts = List::new(alloc);
    for value in values {
        match value {
            WrittenValue::One(text) => texts.push(text)?,
            WrittenValue::Array { .. } => return Err(ParseFault::BadParameter(place)),
        }
    }
    Ok(WrittenValue::Array { place, texts })
}
