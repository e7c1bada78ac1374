ghost use Rattle.std.specs.Prelude.{◌≡◌, option_map};
ghost use Rattle.std.specs.Option.{option_copied};
ghost use Rattle.tow_language.specs.Templates.{long_word, long_form, spelled_long};
ghost use Rattle.tow_print.specs.Parts.{spelled_form, spelled_parts};

use super::forms::{Form, named};
use tow_model::{Attribute, Piece};

/// A template in which one attribute is spelled by its long form, and each other one by its own short form.
#[derive(Clone, Copy, Debug)]
pub struct LongTemplate<'a> {
    pub front: &'a [Piece],
    pub long: Form<'a>,
    pub behind: &'a [Piece],
}

/// The template with the long form of the last attribute that has one.
pub fn long_template(template: &[Piece]) -> Option<LongTemplate<'_>>
    ensures { option_map spelled_parts result ≡ spelled_long template.now }
{
    let mut at = template.len();
    while at > 0 {
        at -= 1;
        if let Some(long) = long_form(&template[at]) {
            return Some(LongTemplate {
                front: &template[..at],
                long,
                behind: &template[at + 1..],
            });
        }
    }
    None
}

/// The long form of a piece that has one.
fn long_form(piece: &Piece) -> Option<Form<'static>>
    ensures { option_map spelled_form result ≡ long_form piece.now }
{
    let Piece::Value(attribute) = piece else {
        return None;
    };
    match long_word(attribute) {
        Some(word) => Some(named(b"%{", word)),
        None => None,
    }
}

/// The word of the long form of an attribute that has one.
fn long_word(attribute: &Attribute) -> Option<&'static [u8]>
    ensures { option_copied result ≡ long_word attribute.now }
{
    match attribute {
        Attribute::Method => Some(b"METHOD"),
        Attribute::RequestUrl => Some(b"REQUEST_URL"),
        Attribute::RelativePath => Some(b"RELATIVE_PATH"),
        Attribute::Query => Some(b"QUERY_STRING"),
        Attribute::Status => Some(b"RESPONSE_CODE"),
        Attribute::RequestLine => Some(b"REQUEST_LINE"),
        Attribute::Protocol => Some(b"PROTOCOL"),
        Attribute::RemoteIp => Some(b"REMOTE_IP"),
        Attribute::RemoteHost => Some(b"REMOTE_HOST"),
        Attribute::User => Some(b"REMOTE_USER"),
        Attribute::Moment => Some(b"DATE_TIME"),
        Attribute::Sent => Some(b"BYTES_SENT"),
        Attribute::Ident
        | Attribute::SentOrDash
        | Attribute::RequestField(_)
        | Attribute::ResponseField(_)
        | Attribute::Param(_)
        | Attribute::Cookie(_)
        | Attribute::Context(_) => None,
    }
}
