ghost use Rattle.std.specs.Prelude.{◌≡◌, ◌++◌, OnOk};
ghost use Rattle.tow_language.specs.Printed.{printed_action};
ghost use Rattle.tow_model.specs.declared.action.Action.TheVariants as actions;

use super::calls::{put_call_of_number, put_call_of_template, put_call_of_texts};
use super::forms::put_target;
use super::templates::put_template;
use super::texts::{put_prefix, put_text, put_truth};
use std::alloc::AllocError;
use tow_model::{Action, Piece, Target};

/// Appends the call of a handler, or one of the two words.
pub fn put_action(text: &mut Vec<u8>, action: &Action) -> Result<(), AllocError>
    ensures { OnOk result (text.new.items ≡ text.old.items ++ printed_action action.now) }
{
    match action {
        Action::Set { target, value } => put_set(text, target, value.as_slice()),
        Action::Clear { target } => put_clear(text, target),
        Action::Rewrite(value) => put_call_of_template(text, b"rewrite(value=", value.as_slice()),
        Action::Redirect(value) => put_call_of_template(text, b"redirect(value=", value.as_slice()),
        Action::ResponseCode(status) => {
            put_call_of_number(text, b"response-code(value=", u32::from(*status))
        }
        Action::Header {
            name,
            value,
            replace,
        } => put_header(text, name.as_slice(), value.as_slice(), *replace),
        Action::AllowedMethods(methods) => {
            put_call_of_texts(text, b"allowed-methods(methods=", methods.as_slice())
        }
        Action::RequestLimit { most, .. } => {
            put_call_of_number(text, b"request-limit(requests=", *most)
        }
        Action::Resource { location, listing } => put_resource(text, location.as_slice(), *listing),
        Action::Blocking => text.extend_from_slice(b"blocking"),
        Action::AccessLog { format, .. } => {
            put_call_of_template(text, b"access-log(format=", format.as_slice())
        }
        Action::Echo => text.extend_from_slice(b"echo"),
        Action::Restart => text.extend_from_slice(b"restart"),
        Action::Done => text.extend_from_slice(b"done"),
    }
}

fn put_set(text: &mut Vec<u8>, target: &Target, value: &[Piece]) -> Result<(), AllocError>
    ensures { OnOk result (text.new.items
        ≡ text.old.items ++ printed_action (actions.Set target.now value.now)) }
{
    text.extend_from_slice(b"set(attribute=")?;
    put_target(text, target)?;
    put_call_of_template(text, b", value=", value)?;
    Ok(())
}

fn put_clear(text: &mut Vec<u8>, target: &Target) -> Result<(), AllocError>
    ensures { OnOk result (text.new.items
        ≡ text.old.items ++ printed_action (actions.Clear target.now)) }
{
    text.extend_from_slice(b"clear(attribute=")?;
    put_target(text, target)?;
    text.extend_from_slice(b")")?;
    Ok(())
}

fn put_header(
    text: &mut Vec<u8>,
    name: &[u8],
    value: &[Piece],
    replace: bool,
) -> Result<(), AllocError>
    ensures { OnOk result (text.new.items
        ≡ text.old.items ++ printed_action (actions.Header name.now value.now replace)) }
{
    text.extend_from_slice(b"header(header=")?;
    put_text(text, name)?;
    text.extend_from_slice(b", value=")?;
    put_template(text, value)?;
    text.extend_from_slice(b", override=")?;
    put_truth(text, replace)?;
    text.extend_from_slice(b")")?;
    Ok(())
}

fn put_resource(text: &mut Vec<u8>, location: &[u8], listing: bool) -> Result<(), AllocError>
    ensures { OnOk result (text.new.items
        ≡ text.old.items ++ printed_action (actions.Resource location.now listing)) }
{
    text.extend_from_slice(b"resource(location=")?;
    put_prefix(text, location)?;
    text.extend_from_slice(b", allow-listing=")?;
    put_truth(text, listing)?;
    text.extend_from_slice(b")")?;
    Ok(())
}
