//! Searches for one pattern.

ghost use Rattle.std.specs.Prelude.{◌≡◌, IfOk, decimal, slice_range};
ghost use Rattle.regex.specs.Bytes.{regex_source};
ghost use Rattle.regex.specs.Replace.{bytes_of};
ghost use Rattle.tow_model.specs.Fields as fields;
ghost use Rattle.tow_pattern.specs.Patterns.{pattern_bindings};
ghost use Rattle.tow_pred.specs.Built.{IsBuilt, located_groups};

use itoa::Buffer;
use regex::CaptureLocations;
use regex::bytes::{Matcher, Regex};
use std::alloc::{AllocError, Global};
use std::marker::Model;
use tow_model::{Field, List};
use tow_text::copied_field;

/// Searches for one pattern, and has room for the groups of a match. Contracts see the pattern's text.
#[derive(Drop)]
pub(crate) struct Search<'t> {
    regex: &'t Regex,
    matcher: Matcher<'t>,
    locations: CaptureLocations,
}

impl<'t> Model for Search<'t> {
    ghost use Rattle.std.specs.Prelude.{◌≡◌, List, ℕ};
    ghost use Rattle.regex.specs.Bytes.{regex_source, regex_pattern, group_count, matcher_pattern};
    ghost use Rattle.regex.specs.Locations.{location_count};
    ghost use Rattle.tow_pred.specs.Built.{IsBuilt};

    ghost Value = { List ℕ };

    ghost view = { λ s. regex_source s.regex.now };

    ghost invariant = { λ s. IsBuilt s.regex.now
        × (matcher_pattern s.matcher ≡ regex_pattern s.regex.now)
        × (location_count s.locations ≡ group_count s.regex.now) };
}

impl<'t> Search<'t> {
    /// Takes memory for the matcher and the room.
    pub(crate) fn new(alloc: Global, regex: &'t Regex) -> Result<Search<'t>, AllocError>
        requires { IsBuilt regex.now }
        ensures { IfOk result (λ s. s ≡ regex_source regex.now) }
    {
        let matcher = regex.matcher(alloc)?;
        let locations = regex.capture_locations(alloc)?;
        Ok(Search {
            regex,
            matcher,
            locations,
        })
    }

    /// The groups of the first match in the value, by their numbers, if there is one. Takes memory for them alone.
    pub(crate) fn bindings(
        &mut self,
        alloc: Global,
        value: &[u8],
    ) -> Result<Option<List<Field>>, AllocError>
        ensures bindings { IfOk result (λ bindings. bindings
            ≡ pattern_bindings self.old value.now) }
        ensures same { self.new ≡ self.old }
    {
        match self.matcher.captures_read(&mut self.locations, value) {
            None => return Ok(None),
            Some(_) => {
                let groups = groups(alloc, value, &self.locations)?;
                Ok(Some(groups))
            }
        }
    }
}

/// The bytes from a place up to another, as far as the value has them.
fn part(value: &[u8], from: usize, to: usize) -> &[u8]
    ensures { result.now ≡ slice_range value.now from to }
{
    let from = from.min(value.len());
    let to = to.min(value.len()).max(from);
    &value[from..to]
}

/// The bytes at the location, and none if a group took no part.
fn located(value: &[u8], location: Option<(usize, usize)>) -> &[u8]
    ensures { result.now ≡ bytes_of value.now location }
{
    match location {
        Some((from, to)) => part(value, from, to),
        None => b"",
    }
}

/// The binding of a group's number. Takes memory for it.
fn group(alloc: Global, number: usize, text: &[u8]) -> Result<Field, AllocError>
    ensures { IfOk result (λ f. f ≡ fields.field (decimal number) text.now) }
{
    let mut digits = Buffer::new();
    copied_field(alloc, digits.format(number as u64).as_bytes(), text)
}

/// The groups whose locations these are, by their numbers from 0 on. Takes memory for them.
fn groups(
    alloc: Global,
    value: &[u8],
    locations: &CaptureLocations,
) -> Result<List<Field>, AllocError>
    ensures { IfOk result (λ fields. fields ≡ located_groups value.now locations.now) }
{
    let mut fields = List::new(alloc);
    for number in 0..locations.len() {
        let text = located(value, locations.get(number));
        fields.push(group(alloc, number, text)?)?;
    }
    Ok(fields)
}
