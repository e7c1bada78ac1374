ghost use Rattle.std.specs.Prelude.{◌≡◌, ℕ, List, ◌++◌, OnOk, codes};
ghost use Rattle.tow_language.specs.Printed.{printed_text, printed_target};
ghost use Rattle.tow_language.specs.Templates.{spelled_attribute};
ghost use Rattle.tow_print.specs.Words.{ahead, bytes_in};
ghost use Rattle.tow_print.specs.Parts.{spelled_form};

use super::spelling::Spelling;
use super::style::{Style, put_bytes, put_quote, style_for};
use std::alloc::AllocError;
use tow_model::{Attribute, Target};

/// The spelling of an attribute: its name, with what stands before and behind it.
#[derive(Clone, Copy, Debug)]
pub struct Form<'a> {
    pub before: &'a [u8],
    pub name: &'a [u8],
    pub behind: &'a [u8],
}

/// The spelling of an attribute.
pub fn form_of(attribute: &Attribute) -> Form<'_>
    ensures { spelled_form result ≡ spelled_attribute attribute.now }
{
    match attribute {
        Attribute::Method => plain(b"%m"),
        Attribute::RequestUrl => plain(b"%U"),
        Attribute::RelativePath => plain(b"%R"),
        Attribute::Query => plain(b"%q"),
        Attribute::Status => plain(b"%s"),
        Attribute::RequestLine => plain(b"%r"),
        Attribute::Protocol => plain(b"%H"),
        Attribute::RemoteIp => plain(b"%a"),
        Attribute::RemoteHost => plain(b"%h"),
        Attribute::Ident => plain(b"%l"),
        Attribute::User => plain(b"%u"),
        Attribute::Moment => plain(b"%t"),
        Attribute::Sent => plain(b"%B"),
        Attribute::SentOrDash => plain(b"%b"),
        Attribute::RequestField(name) => named(b"%{i,", name.as_slice()),
        Attribute::ResponseField(name) => named(b"%{o,", name.as_slice()),
        Attribute::Param(name) => named(b"%{q,", name.as_slice()),
        Attribute::Cookie(name) => named(b"%{c,", name.as_slice()),
        Attribute::Context(name) => named(b"${", name.as_slice()),
    }
}

/// The spelling of an attribute that may be written.
fn form_of_target(target: &Target) -> Form<'_>
    ensures { printed_text (spelled_form result) ≡ printed_target target.now }
{
    match target {
        Target::RelativePath => plain(b"%R"),
        Target::Query => plain(b"%q"),
        Target::Status => plain(b"%s"),
        Target::ResponseField(name) => named(b"%{o,", name.as_slice()),
        Target::Context(name) => named(b"${", name.as_slice()),
    }
}

/// A spelling without a name.
fn plain(spelled: &[u8]) -> Form<'_>
    ensures { spelled_form result ≡ spelled.now }
{
    Form {
        before: spelled,
        name: b"",
        behind: b"",
    }
}

/// A spelling with a name and a `}` behind it.
pub fn named<'a>(before: &'a [u8], name: &'a [u8]) -> Form<'a>
    ensures { spelled_form result ≡ before.now ++ (name.now ++ codes "}") }
{
    Form {
        before,
        name,
        behind: b"}",
    }
}

/// What was seen with one more attribute.
pub fn with_form(seen: Spelling, form: Form<'_>) -> Spelling
    ensures { (bytes : List ℕ)
        → ahead result bytes ≡ ahead seen (spelled_form form.entry ++ bytes) }
{
    seen.with_bytes(form.before)
        .with_bytes(form.name)
        .with_bytes(form.behind)
}

/// Appends an attribute that stands in a text.
pub fn put_form(text: &mut Vec<u8>, style: Style, form: Form<'_>) -> Result<(), AllocError>
    ensures { OnOk result (text.new.items
        ≡ text.old.items ++ bytes_in style (spelled_form form.entry)) }
{
    put_bytes(text, style, form.before)?;
    put_bytes(text, style, form.name)?;
    put_bytes(text, style, form.behind)?;
    Ok(())
}

/// Appends an attribute that may be written.
pub fn put_target(text: &mut Vec<u8>, target: &Target) -> Result<(), AllocError>
    ensures { OnOk result (text.new.items ≡ text.old.items ++ printed_target target.now) }
{
    let form = form_of_target(target);
    let style = style_for(with_form(Spelling::Empty, form).is_whole());
    put_quote(text, style)?;
    put_form(text, style, form)?;
    put_quote(text, style)?;
    Ok(())
}
