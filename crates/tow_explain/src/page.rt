//! What a person is told of a fault.

ghost use Rattle.std.specs.Prelude.{◌≡◌, ◌++◌, ◌-◌, IfOk, OnOk};
ghost use Rattle.std.specs.Prelude.{codes, decimal, drop, flat_map, take};
ghost use Rattle.tow_explain.specs.Forms.{parameter_words};
ghost use Rattle.tow_explain.specs.Pages as model;
ghost use Rattle.tow_language.specs.declared.signatures.Parameter.{Parameter};

use crate::cause::Cause;
use crate::cut::{dots, near_back, near_front};
use crate::diagnosis::Diagnosis;
use crate::drawing::{Row, put_row, put_spaces};
use crate::form::{put_parameter, takes_words};
use crate::line::line_text;
use itoa::Buffer;
use std::alloc::{AllocError, Global};
use tow_language::{Parameter, Signature};

/// The page for what was found at a line and a column, which count from 1. Takes memory for it.
pub fn page(
    alloc: Global,
    text: &[u8],
    line: usize,
    column: usize,
    diagnosis: &Diagnosis,
) -> Result<Vec<u8>, AllocError>
    ensures { IfOk result (λ v. v.items ≡ model.page text.now line column diagnosis.now) }
{
    let shown = line_text(text, line);
    let (front, back) = split(shown, column.saturating_sub(1));
    let mut out = Vec::new(alloc);
    put_shown_line(&mut out, line, front, back)?;
    put_caret_line(
        &mut out,
        line,
        front,
        diagnosis.cause,
        diagnosis.subject.as_slice(),
    )?;
    put_mend_line(&mut out, line, diagnosis.cause)?;
    put_call_lines(&mut out, line, diagnosis.call)?;
    Ok(out)
}

/// What stands before a place of a text, and what follows it.
fn split(text: &[u8], at: usize) -> (&[u8], &[u8])
    ensures front { result.0.now ≡ take at text.now }
    ensures back { result.1.now ≡ drop at text.now }
{
    if at <= text.len() {
        text.split_at(at)
    } else {
        (text, b"")
    }
}

fn put_number(out: &mut Vec<u8>, number: usize) -> Result<(), AllocError>
    ensures { OnOk result (out.new.items ≡ out.old.items ++ decimal number) }
{
    out.extend_from_slice(Buffer::new().format(number).as_bytes())?;
    Ok(())
}

/// Appends white space as wide as the line's number, and a mark.
fn put_margin(out: &mut Vec<u8>, line: usize, mark: &[u8]) -> Result<(), AllocError>
    ensures { OnOk result (out.new.items ≡ out.old.items ++ model.margin line mark.now) }
{
    put_spaces(out, Buffer::new().format(line).len())?;
    out.extend_from_slice(mark)?;
    Ok(())
}

#[tactic(auto, unfolding(crate::specs::Pages::shown_line))]
fn put_shown_line(
    out: &mut Vec<u8>,
    line: usize,
    front: &[u8],
    back: &[u8],
) -> Result<(), AllocError>
    ensures { OnOk result (out.new.items
        ≡ out.old.items ++ model.shown_line line front.now back.now) }
{
    put_number(out, line)?;
    out.extend_from_slice(b" | ")?;
    put_shown_front(out, front)?;
    put_shown_back(out, back)?;
    out.extend_from_slice(b"\n")?;
    Ok(())
}

/// Appends what is shown before the column.
#[tactic(auto, unfolding(crate::specs::Pages::shown_front))]
fn put_shown_front(out: &mut Vec<u8>, front: &[u8]) -> Result<(), AllocError>
    ensures { OnOk result (out.new.items ≡ out.old.items ++ model.shown_front front.now) }
{
    out.extend_from_slice(dots(front))?;
    put_row(out, Row::Text, near_front(front))
}

/// Appends what is shown from the column on.
#[tactic(auto, unfolding(crate::specs::Pages::shown_back))]
fn put_shown_back(out: &mut Vec<u8>, back: &[u8]) -> Result<(), AllocError>
    ensures { OnOk result (out.new.items ≡ out.old.items ++ model.shown_back back.now) }
{
    put_row(out, Row::Text, near_back(back))?;
    out.extend_from_slice(dots(back))?;
    Ok(())
}

/// Appends what stands under what is shown before the column.
#[tactic(auto, unfolding(crate::specs::Pages::under_front))]
fn put_under_front(out: &mut Vec<u8>, front: &[u8]) -> Result<(), AllocError>
    ensures { OnOk result (out.new.items ≡ out.old.items ++ model.under_front front.now) }
{
    put_spaces(out, dots(front).len())?;
    put_row(out, Row::Under, near_front(front))
}

#[tactic(auto, unfolding(crate::specs::Pages::caret_line))]
fn put_caret_line(
    out: &mut Vec<u8>,
    line: usize,
    front: &[u8],
    cause: Cause,
    subject: &[u8],
) -> Result<(), AllocError>
    ensures { OnOk result (out.new.items
        ≡ out.old.items ++ model.caret_line line front.now cause subject.now) }
{
    put_margin(out, line, b" | ")?;
    put_under_front(out, front)?;
    out.extend_from_slice(b"^ ")?;
    put_said(out, cause, subject)?;
    out.extend_from_slice(b"\n")?;
    Ok(())
}

/// Appends what is wrong, and with what.
#[tactic(auto, unfolding(crate::specs::Pages::said))]
fn put_said(out: &mut Vec<u8>, cause: Cause, subject: &[u8]) -> Result<(), AllocError>
    ensures { OnOk result (out.new.items ≡ out.old.items ++ model.said cause subject.now) }
{
    out.extend_from_slice(cause.wrong().as_bytes())?;
    put_about(out, subject)
}

/// Appends the text that a sentence is about.
fn put_about(out: &mut Vec<u8>, subject: &[u8]) -> Result<(), AllocError>
    ensures { OnOk result (out.new.items ≡ out.old.items ++ model.about subject.now) }
{
    if subject.is_empty() {
        return Ok(());
    }
    out.extend_from_slice(b": `")?;
    put_row(out, Row::Text, subject)?;
    out.extend_from_slice(b"`")?;
    Ok(())
}

#[tactic(auto, unfolding(crate::specs::Pages::mend_line))]
fn put_mend_line(out: &mut Vec<u8>, line: usize, cause: Cause) -> Result<(), AllocError>
    ensures { OnOk result (out.new.items ≡ out.old.items ++ model.mend_line line cause) }
{
    put_margin(out, line, b" = ")?;
    out.extend_from_slice(cause.mend().as_bytes())?;
    out.extend_from_slice(b"\n")?;
    Ok(())
}

#[tactic(auto, unfolding(crate::specs::Pages::call_lines))]
fn put_call_lines(out: &mut Vec<u8>, line: usize, call: Option<Signature>) -> Result<(), AllocError>
    ensures { OnOk result (out.new.items ≡ out.old.items ++ model.call_lines line call) }
{
    let Some(signature) = call else {
        return Ok(());
    };
    put_margin(out, line, b" = ")?;
    out.extend_from_slice(signature.name)?;
    out.extend_from_slice(takes_words(signature.parameters))?;
    out.extend_from_slice(b"\n")?;
    put_parameters(out, line, signature.parameters)
}

/// Appends a line for each parameter.
fn put_parameters(
    out: &mut Vec<u8>,
    line: usize,
    parameters: &[Parameter],
) -> Result<(), AllocError>
    ensures { OnOk result (out.new.items
        ≡ out.old.items ++ flat_map (λ (p : Parameter). model.margin line (codes " =   ")
        ++ parameter_words p ++ codes "\n") parameters.now) }
{
    for parameter in parameters {
        put_margin(out, line, b" =   ")?;
        put_parameter(out, parameter)?;
        out.extend_from_slice(b"\n")?;
    }
    Ok(())
}
