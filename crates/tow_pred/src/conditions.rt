//! The tests that predicates are made of, and what they bind.

ghost use Rattle.std.specs.Prelude.{◌≡◌, ◌<◌, IfOk, IfSome, IsTrue, length, slice_get};
ghost use Rattle.tow_model.specs.Dates.{first_undated};
ghost use Rattle.tow_pattern.specs.Patterns.{pattern_bindings};
ghost use Rattle.tow_semantics.specs.Predicates.{AreAmong, held, pattern_of, prefix_bindings, test_of};
ghost use Rattle.tow_semantics.specs.Values.{value_of};
ghost use Rattle.tow_pred.specs.Memory.{is_plain_test};
ghost use Rattle.std.specs.Result.{is_ok};

use crate::context::bind_all;
use crate::paths::{ends_with_one, longest_prefix};
use crate::scratch::Scratch;
use crate::templates::bind_parts;
use crate::values::{are_equal, contains_one, exists};
use std::alloc::Global;
use tow_attr::value;
use tow_model::{Bytes, Field, List, NoMemory, Record, Request, Template, Test};
use tow_text::{bind, copied_field, is_among};

/// Whether the test holds. What it binds stands in the context from then on. If memory is short, nothing but the context may
/// have changed.
pub fn passes(
    alloc: Global,
    scratch: &mut Scratch<'_>,
    test: &Test,
    request: &Request,
    state: &mut Record,
    moment: u64,
) -> Result<bool, NoMemory>
    requires dated { moment < first_undated }
    requires among { AreAmong (pattern_of test.now) scratch.old }
    ensures holds { IfOk result (λ b.
        held (test_of test.now request.now state.old moment) state.old
        ≡ record { holds = b; state = state.new }) }
    ensures scratch { scratch.new ≡ scratch.old }
    ensures rest { state.new ≡ record state.old { context = state.new.context } }
    ensures plain { IsTrue (is_plain_test test.now) → IsTrue (is_ok result) }
{
    match test {
        Test::True => Ok(true),
        Test::False => Ok(false),
        Test::Path(paths) => Ok(is_among(state.path.as_slice(), paths.as_slice())),
        Test::Prefix(prefixes) => bind_remaining(alloc, prefixes.as_slice(), state),
        Test::Suffix(suffixes) => Ok(ends_with_one(state.path.as_slice(), suffixes.as_slice())),
        Test::PathTemplate { parts, value } => {
            let bindings = bind_parts(alloc, parts.as_slice(), value, request, state, moment)?;
            bind_found(alloc, state, bindings)
        }
        Test::Regex {
            number,
            pattern: _,
            value,
        } => {
            let bindings = groups(alloc, scratch, *number, value, request, state, moment)?;
            bind_found(alloc, state, bindings)
        }
        Test::Method(methods) => Ok(is_among(request.method.as_slice(), methods.as_slice())),
        Test::Equals(templates) => are_equal(alloc, templates.as_slice(), request, state, moment),
        Test::Contains { value, search } => {
            contains_one(alloc, value, search.as_slice(), request, state, moment)
        }
        Test::Exists(value) => exists(alloc, value, request, state, moment),
    }
}

/// Binds what a test found, if anything. Takes memory for the context.
fn bind_found(
    alloc: Global,
    state: &mut Record,
    bindings: Option<List<Field>>,
) -> Result<bool, NoMemory>
    ensures holds { IfOk result (λ b. held bindings state.old
        ≡ record { holds = b; state = state.new }) }
    ensures rest { state.new ≡ record state.old { context = state.new.context } }
{
    match bindings {
        Some(bindings) => {
            bind_all(alloc, &mut state.context, bindings)?;
            Ok(true)
        }
        None => Ok(false),
    }
}

/// Binds what the longest of the prefixes leaves of the path, if it lies under one. Takes memory for the binding.
fn bind_remaining(alloc: Global, prefixes: &[Bytes], state: &mut Record) -> Result<bool, NoMemory>
    ensures holds { IfOk result (λ b.
        held (prefix_bindings prefixes.now state.old.path) state.old
        ≡ record { holds = b; state = state.new }) }
    ensures rest { state.new ≡ record state.old { context = state.new.context } }
{
    match longest_prefix(prefixes, state.path.as_slice()) {
        Some(len) => {
            let remaining = copied_field(alloc, b"remaining", &state.path.as_slice()[len..])?;
            bind(alloc, &mut state.context, remaining)?;
            Ok(true)
        }
        None => Ok(false),
    }
}

/// The groups of the first match of a pattern in the template's value. Takes memory for the value and the groups.
fn groups(
    alloc: Global,
    scratch: &mut Scratch<'_>,
    number: u32,
    template: &Template,
    request: &Request,
    state: &Record,
    moment: u64,
) -> Result<Option<List<Field>>, NoMemory>
    requires dated { moment < first_undated }
    requires there { number < length scratch.old }
    ensures bindings { IfSome (slice_get scratch.old number) (λ pattern. IfOk result (λ bindings.
        bindings ≡ pattern_bindings pattern (value_of template.now request.now state.now moment))) }
    ensures scratch { scratch.new ≡ scratch.old }
{
    let text = value(alloc, template, request, state, moment)?;
    let bindings = scratch.bindings(alloc, number as usize, text.as_slice())?;
    Ok(bindings)
}
