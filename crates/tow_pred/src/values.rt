//! Tests of the values of templates.

ghost use Rattle.std.specs.Prelude.{◌≡◌, ◌<◌, IfOk, not, map};
ghost use Rattle.std.specs.List.{list_any, list_all};
ghost use Rattle.std.specs.Str.{bytes_eq};
ghost use Rattle.tow_model.specs.Dates.{first_undated};
ghost use Rattle.tow_semantics.specs.Predicates.{all_same};
ghost use Rattle.tow_model.specs.Texts.{contains, is_empty};
ghost use Rattle.tow_semantics.specs.Values.{value_of};

use memchr::memmem;
use std::alloc::Global;
use tow_attr::value;
use tow_model::{Bytes, NoMemory, Record, Request, Template};

/// Whether all templates have one value. Takes memory for two values at once.
pub(crate) fn are_equal(
    alloc: Global,
    templates: &[Template],
    request: &Request,
    state: &Record,
    moment: u64,
) -> Result<bool, NoMemory>
    requires dated { moment < first_undated }
    ensures { IfOk result (λ equal. equal
        ≡ all_same (map (λ v. value_of v request.now state.now moment) templates.now)) }
{
    let Some((first, others)) = templates.split_first() else {
        return Ok(true);
    };
    let first = value(alloc, first, request, state, moment)?;
    have_value(alloc, others, first.as_slice(), request, state, moment)
}

/// Whether all templates have this value. Takes memory for one value at once.
fn have_value(
    alloc: Global,
    templates: &[Template],
    wanted: &[u8],
    request: &Request,
    state: &Record,
    moment: u64,
) -> Result<bool, NoMemory>
    requires dated { moment < first_undated }
    ensures { IfOk result (λ equal. equal
        ≡ list_all (bytes_eq wanted.now)
        (map (λ v. value_of v request.now state.now moment) templates.now)) }
{
    for template in templates {
        let found = value(alloc, template, request, state, moment)?;
        if wanted != found.as_slice() {
            return Ok(false);
        }
    }
    Ok(true)
}

/// Whether the part stands somewhere in the text.
fn has_part(text: &[u8], part: &[u8]) -> bool
    ensures { result ≡ contains part.now text.now }
{
    memmem::find(text, part).is_some()
}

/// Whether one of the parts stands somewhere in the text. Takes no memory.
fn has_part_of(text: &[u8], parts: &[Bytes]) -> bool
    ensures { result ≡ list_any (λ s. contains s text.now) parts.now }
{
    parts.iter().any(|part| has_part(text, part.as_slice()))
}

/// Whether one of the texts stands somewhere in the template's value. Takes memory for the value.
pub(crate) fn contains_one(
    alloc: Global,
    template: &Template,
    search: &[Bytes],
    request: &Request,
    state: &Record,
    moment: u64,
) -> Result<bool, NoMemory>
    requires dated { moment < first_undated }
    ensures { IfOk result (λ found. found
        ≡ list_any (λ s. contains s (value_of template.now request.now state.now moment))
        search.now) }
{
    let text = value(alloc, template, request, state, moment)?;
    Ok(has_part_of(text.as_slice(), search))
}

/// Whether the template's value is not empty. Takes memory for the value.
pub(crate) fn exists(
    alloc: Global,
    template: &Template,
    request: &Request,
    state: &Record,
    moment: u64,
) -> Result<bool, NoMemory>
    requires dated { moment < first_undated }
    ensures { IfOk result (λ found. found
        ≡ not (is_empty (value_of template.now request.now state.now moment))) }
{
    let text = value(alloc, template, request, state, moment)?;
    Ok(is_filled(text.as_slice()))
}

/// Whether the text is not empty.
fn is_filled(text: &[u8]) -> bool
    ensures { result ≡ not (is_empty text.now) }
{
    !text.is_empty()
}
