//! What a page makes of the record of an exchange.

ghost use Rattle.std.specs.Prelude.{◌≡◌, ◌≢◌, IfOk, OnErr, OnOk, codes};
ghost use Rattle.tow_model.specs.declared.page.Page as model;
ghost use Rattle.tow_semantics.specs.Pages.{Found, dated, on_found, page_for, typed};
ghost use Rattle.tow_found.specs.Applied.{step_of, with_fields};

use crate::end::End;
use crate::types::content_type;
use std::alloc::{AllocError, Global};
use tow_model::limits::FIRST_UNDATED;
use tow_model::{Bytes, Choice, Field, List, NoMemory, Page, Record};
use tow_render::date;
use tow_text::{clear_field, has_field, set_field};

/// What the page makes of the record: fields, and content that it has itself. A page is none of the two faults. Takes memory
/// for fields; if it is short, nothing but the fields of the record may have changed.
pub fn apply(alloc: Global, page: Page, record: &mut Record) -> Result<End, NoMemory>
    requires no_fault { page ≢ Page.FolderFault }
    requires no_want { page ≢ Page.NoMemory }
    ensures ok { IfOk result (λ end. (found : Found) → page ≡ page_for found
        → on_found found record.old ≡ step_of end record.new) }
    ensures err { OnErr result (record.new ≡ with_fields record.new.fields record.old) }
{
    match page {
        Page::Serve { path, len, second } => {
            give_type(alloc, &mut record.fields, content_type(path.as_slice()))?;
            give_date(alloc, &mut record.fields, second)?;
            record.choice = Choice::File { path, len };
            Ok(End::Stops)
        }
        Page::Redirect(location) => {
            set_field(alloc, &mut record.fields, b"location", location)?;
            Ok(End::Answers(302))
        }
        Page::Listing(bytes) => {
            give_type(alloc, &mut record.fields, b"text/html; charset=utf-8")?;
            record.choice = Choice::Listing(bytes);
            Ok(End::Stops)
        }
        Page::Forbidden => Ok(End::Answers(403)),
        Page::NotModified { second } => {
            clear_field(alloc, &mut record.fields, b"content-type");
            give_date(alloc, &mut record.fields, second)?;
            Ok(End::Answers(304))
        }
        Page::NotFound => Ok(End::GoesOn),
        Page::BadMethod => {
            let methods = Bytes::from_slice(alloc, b"GET, HEAD")?;
            set_field(alloc, &mut record.fields, b"allow", methods)?;
            Ok(End::Answers(405))
        }
        Page::FolderFault | Page::NoMemory => unreachable!(),
    }
}

/// Sets the content type, if there is none. Takes memory for it; if it is short, the fields stay as they were.
fn give_type(alloc: Global, fields: &mut List<Field>, value: &[u8]) -> Result<(), AllocError>
    ensures ok { OnOk result (fields.new ≡ typed value.now fields.old) }
    ensures err { OnErr result (fields.new ≡ fields.old) }
{
    if has_field(fields.as_slice(), b"content-type") {
        return Ok(());
    }
    let value = Bytes::from_slice(alloc, value)?;
    set_field(alloc, fields, b"content-type", value)
}

/// Sets the date of the last change, if a date can show this second. Takes memory for it; if it is short, the fields stay as
/// they were.
fn give_date(alloc: Global, fields: &mut List<Field>, second: u64) -> Result<(), NoMemory>
    ensures ok { OnOk result (fields.new ≡ dated second fields.old) }
    ensures err { OnErr result (fields.new ≡ fields.old) }
{
    if second >= FIRST_UNDATED {
        return Ok(());
    }
    let value = date(alloc, second)?;
    set_field(alloc, fields, b"last-modified", value)?;
    Ok(())
}
