//! A place of a call, and what is wrong with a parameter there.

ghost use Rattle.std.specs.Prelude.{◌≡◌, if◌then◌else◌};
ghost use Rattle.tow_explain.specs.Causes.{kind_of};
ghost use Rattle.tow_explain.specs.Names as model;
ghost use Rattle.tow_explain.specs.declared.cause.Cause.TheVariants as causes;
ghost use Rattle.tow_language.specs.Table as table;
ghost use Rattle.tow_language.specs.declared.kind.Kind.TheVariants as kinds;

use crate::cause::Cause;
use tow_language::{Parameter, Shape};

/// How a value is written.
#[derive(Clone, Copy, Debug, PartialEq, Eq)]
pub enum Form {
    Text,
    Array,
    /// An array of nothing.
    Empty,
    /// A value without a name after another one.
    Further,
    /// The first of several values without names, among which an array is.
    Among,
}

/// A place of a call.
#[derive(Clone, Copy)]
pub enum Spot<'a> {
    /// The name of the call.
    Call,
    /// The name of a parameter.
    Name(&'a [u8]),
    /// A value, and what it has to be; nothing if the call has no such parameter.
    Value { form: Form, shape: Option<Shape> },
}

/// What is wrong with a parameter of the call at this spot.
pub fn spot_cause(spot: Spot<'_>, parameters: &[Parameter]) -> Cause
    ensures cause { result ≡ model.spot_cause spot.entry parameters.now }
    ensures kind { kind_of result ≡ kinds.BadParameter }
{
    match spot {
        Spot::Call => Cause::Missing,
        Spot::Name(name) => name_cause(name, parameters),
        Spot::Value { form, shape } => value_cause(form, shape, parameters),
    }
}

fn name_cause(name: &[u8], parameters: &[Parameter]) -> Cause
    ensures cause { result ≡ (if model.is_parameter name.now parameters.now
        then causes.GivenTwice else causes.UnknownParameter) }
    ensures kind { kind_of result ≡ kinds.BadParameter }
{
    if is_parameter(name, parameters) {
        Cause::GivenTwice
    } else {
        Cause::UnknownParameter
    }
}

/// Whether the call has a parameter of this name.
fn is_parameter(name: &[u8], parameters: &[Parameter]) -> bool
    ensures { result ≡ model.is_parameter name.now parameters.now }
{
    parameters.iter().any(|parameter| parameter.name == name)
}

fn value_cause(form: Form, shape: Option<Shape>, parameters: &[Parameter]) -> Cause
    ensures cause { result ≡ model.value_cause form shape parameters.now }
    ensures kind { kind_of result ≡ kinds.BadParameter }
{
    let Some(shape) = shape else {
        return Cause::TakesNone;
    };
    match form {
        Form::Further => further_cause(parameters),
        Form::Among => Cause::ArrayAmong,
        Form::Empty if takes_array(shape) => Cause::EmptyArray,
        Form::Array if takes_array(shape) => text_cause(shape),
        Form::Empty | Form::Array => Cause::ArrayForText,
        Form::Text => text_cause(shape),
    }
}

/// What is wrong with a further value without a name in a call with these parameters.
fn further_cause(parameters: &[Parameter]) -> Cause
    ensures cause { result ≡ model.further_cause parameters.now }
    ensures kind { kind_of result ≡ kinds.BadParameter }
{
    if parameters.len() == 1 {
        Cause::OneTooMany
    } else {
        Cause::TakesOne
    }
}

/// What is wrong with a text of this shape.
fn text_cause(shape: Shape) -> Cause
    ensures cause { result ≡ model.text_cause shape }
    ensures kind { kind_of result ≡ kinds.BadParameter }
{
    match shape {
        Shape::Status => Cause::BadStatus,
        Shape::Number { .. } => Cause::BadNumber,
        Shape::Truth => Cause::BadTruth,
        Shape::Match => Cause::BadMatch,
        Shape::Tokens => Cause::BadMethod,
        Shape::Writable => Cause::NotOneAttribute,
        _ => Cause::BadValue,
    }
}

/// Whether a parameter of this shape takes an array.
fn takes_array(shape: Shape) -> bool
    ensures { result ≡ table.takes_array shape }
{
    matches!(
        shape,
        Shape::Texts | Shape::Paths | Shape::Prefixes | Shape::Tokens | Shape::Templates
    )
}
