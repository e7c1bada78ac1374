//! What is wrong at a place of a text, by the kind of its fault.

ghost use Rattle.std.specs.Prelude.{◌≡◌, IfOk};
ghost use Rattle.tow_explain.specs.Causes.{kind_of};
ghost use Rattle.tow_language.specs.declared.kind.Kind.TheVariants as kinds;

use crate::attribute::{bad_attribute, is_response_field, spelled};
use crate::cause::Cause;
use crate::comment::is_in_comment;
use crate::diagnosis::Diagnosis;
use crate::line::position;
use crate::open::open_before;
use crate::parameter::{call_name, missing_name, shape_at, signature_of, spot_at};
use crate::pattern::refusal;
use crate::script::{Script, part};
use crate::spot::spot_cause;
use crate::stray::stray;
use crate::unexpected::unexpected;
use crate::unknown::unknown;
use std::alloc::Global;
use tow_language::{Kind, Parameter, Shape, Signature, Token};
use tow_lex::{LexFault, tokens};
use tow_model::{Bytes, NoMemory};

/// A token of a text, and the tokens before it that open what is not closed before it.
#[derive(Clone, Copy)]
struct Here<'a> {
    script: Script<'a>,
    index: usize,
    open: &'a [usize],
}

impl<'a> Here<'a> {
    /// The text that the token spells.
    fn spelled(&self) -> &'a [u8] {
        spelled(&self.script, self.index)
    }

    /// The token that names the call in which the token stands, or the token itself.
    fn call_name(&self) -> usize {
        call_name(&self.script, self.index, self.open)
    }

    /// The row of the tables for that call, if there is one.
    fn call(&self) -> Option<Signature> {
        signature_of(self.script.bytes(self.call_name()))
    }

    /// Whether the token is to be the name of a field.
    fn is_field_name(&self) -> bool {
        matches!(
            shape_at(&self.script, self.index, parameters_of(self.call())),
            Some(Shape::FieldName)
        )
    }
}

/// What is wrong at the place, where a fault of this kind is. Takes memory.
pub fn diagnose(alloc: Global, text: &[u8], kind: Kind, place: usize) -> Result<Diagnosis, NoMemory>
    ensures { IfOk result (λ d. kind_of d.cause ≡ kind) }
{
    let tokens = tokens_of(alloc, text)?;
    let script = Script {
        text,
        tokens: tokens.as_slice(),
    };
    let index = script.token_from(place);
    let open = open_before(alloc, &script, index)?;
    let here = Here {
        script,
        index,
        open: open.as_slice(),
    };
    match kind {
        Kind::TooLong => plain(alloc, Cause::TooLong),
        Kind::UnclosedQuote => plain(alloc, quote_cause(text, place)),
        Kind::UnclosedBrace => plain(alloc, Cause::UnclosedBrace),
        Kind::TooDeep => plain(alloc, Cause::TooDeep),
        Kind::TooManyLimits => plain(alloc, Cause::TooManyLimits),
        Kind::StrayByte => diagnose_stray(alloc, text, place),
        Kind::BadPattern => diagnose_pattern(alloc, &here),
        Kind::LargePattern => about(alloc, Cause::LargePattern, here.spelled(), None),
        Kind::Unexpected => diagnose_unexpected(alloc, &here),
        Kind::UnknownName => diagnose_unknown(alloc, &here),
        Kind::BadParameter => diagnose_parameter(alloc, &here),
        Kind::BadAttribute => diagnose_attribute(alloc, &here),
        Kind::BadTarget => diagnose_target(alloc, &here),
    }
}

/// The diagnosis of this cause that is about no text.
fn plain(alloc: Global, cause: Cause) -> Result<Diagnosis, NoMemory>
    ensures { IfOk result (λ d. d.cause ≡ cause) }
{
    about(alloc, cause, b"", None)
}

/// The diagnosis of this cause, about a text and a call.
fn about(
    alloc: Global,
    cause: Cause,
    subject: &[u8],
    call: Option<Signature>,
) -> Result<Diagnosis, NoMemory>
    ensures { IfOk result (λ d. d.cause ≡ cause) }
{
    let subject = Bytes::from_slice(alloc, subject)?;
    Ok(Diagnosis {
        cause,
        subject,
        call,
    })
}

/// The tokens of a text; none if it has none.
fn tokens_of(alloc: Global, text: &[u8]) -> Result<Vec<Token>, NoMemory> {
    match tokens(alloc, text) {
        Ok(tokens) => Ok(tokens.into_vec()),
        Err(LexFault::NoMemory) => Err(NoMemory),
        Err(_fault) => Ok(Vec::new(alloc)),
    }
}

/// What is wrong with a quote at the place, which is not closed.
fn quote_cause(text: &[u8], place: usize) -> Cause
    ensures { kind_of result ≡ kinds.UnclosedQuote }
{
    if is_in_comment(text, place) {
        Cause::CommentQuote
    } else {
        Cause::UnclosedQuote
    }
}

fn diagnose_stray(alloc: Global, text: &[u8], place: usize) -> Result<Diagnosis, NoMemory>
    ensures { IfOk result (λ d. kind_of d.cause ≡ kinds.StrayByte) }
{
    let rest = part(text, place, text.len());
    let (cause, size) = stray(rest, place == 0);
    let subject = part(rest, 0, size);
    if cause == Cause::NotAscii && is_in_comment(text, place) {
        return about(alloc, Cause::CommentCharacter, subject, None);
    }
    about(alloc, cause, subject, None)
}

/// The diagnosis of the pattern that the token is, with what `regex` says of it.
fn diagnose_pattern(alloc: Global, here: &Here<'_>) -> Result<Diagnosis, NoMemory>
    ensures { IfOk result (λ d. kind_of d.cause ≡ kinds.BadPattern) }
{
    let subject = refusal(alloc, here.spelled())?;
    Ok(Diagnosis {
        cause: Cause::NoPattern,
        subject,
        call: None,
    })
}

fn diagnose_unexpected(alloc: Global, here: &Here<'_>) -> Result<Diagnosis, NoMemory>
    ensures { IfOk result (λ d. kind_of d.cause ≡ kinds.Unexpected) }
{
    let cause = unexpected(&here.script, here.index, here.open);
    if cause == Cause::LeftOpen || cause == Cause::StillOpen {
        return open_still(alloc, cause, &here.script, here.open);
    }
    if cause == Cause::NoIf {
        return plain(alloc, cause);
    }
    about(alloc, cause, one_line(here.script.bytes(here.index)), None)
}

/// The diagnosis of this cause, about what the last of these tokens opens.
fn open_still(
    alloc: Global,
    cause: Cause,
    script: &Script<'_>,
    open: &[usize],
) -> Result<Diagnosis, NoMemory>
    ensures { IfOk result (λ d. d.cause ≡ cause) }
{
    let [.., last] = open else {
        return plain(alloc, cause);
    };
    let index = *last;
    let mut subject = Vec::from_slice(alloc, script.bytes(index))?;
    let (line, column) = position(script.text, script.place(index));
    let place = format!(in alloc; " of {line}:{column}")?;
    subject.extend_from_slice(place.as_bytes())?;
    Ok(Diagnosis {
        cause,
        subject: Bytes::from_vec(subject),
        call: None,
    })
}

/// The bytes, or none if they are a line end.
fn one_line(bytes: &[u8]) -> &[u8] {
    match bytes {
        [b'\n'] => &[],
        _ => bytes,
    }
}

fn diagnose_unknown(alloc: Global, here: &Here<'_>) -> Result<Diagnosis, NoMemory>
    ensures { IfOk result (λ d. kind_of d.cause ≡ kinds.UnknownName) }
{
    let cause = unknown(&here.script, here.index, here.open);
    about(alloc, cause, here.script.bytes(here.index), None)
}

fn diagnose_parameter(alloc: Global, here: &Here<'_>) -> Result<Diagnosis, NoMemory>
    ensures { IfOk result (λ d. kind_of d.cause ≡ kinds.BadParameter) }
{
    let call = here.call();
    let parameters = parameters_of(call);
    let cause = spot_cause(
        spot_at(&here.script, here.index, here.open, parameters),
        parameters,
    );
    if cause == Cause::Missing {
        return match missing_name(&here.script, here.call_name(), parameters) {
            Some(missing) => about(alloc, Cause::Missing, missing, call),
            None => about(alloc, Cause::Missing, b"", call),
        };
    }
    about(alloc, cause, here.spelled(), call)
}

fn parameters_of(call: Option<Signature>) -> &'static [Parameter] {
    match call {
        Some(signature) => signature.parameters,
        None => &[],
    }
}

fn diagnose_attribute(alloc: Global, here: &Here<'_>) -> Result<Diagnosis, NoMemory>
    ensures { IfOk result (λ d. kind_of d.cause ≡ kinds.BadAttribute) }
{
    if here.is_field_name() {
        return about(alloc, Cause::NoFieldName, here.spelled(), here.call());
    }
    let end = here.script.end(here.call_name().saturating_add(1));
    let attribute = bad_attribute(alloc, &here.script, here.index, end)?;
    about(alloc, Cause::NoAttribute, attribute, None)
}

fn diagnose_target(alloc: Global, here: &Here<'_>) -> Result<Diagnosis, NoMemory>
    ensures { IfOk result (λ d. kind_of d.cause ≡ kinds.BadTarget) }
{
    let value = here.spelled();
    if is_response_field(value) || here.is_field_name() {
        return about(alloc, Cause::KeptField, value, None);
    }
    about(alloc, Cause::NotWritable, value, None)
}
