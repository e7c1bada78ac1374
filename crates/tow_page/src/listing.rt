//! The names of a directory as a page of HTML.

ghost use Rattle.std.specs.Prelude.{◌≡◌, ◌++◌, [], IfOk, OnOk, codes, flat_map, if◌then◌else◌, map};
ghost use Rattle.tow_folder.specs.Folders.{name_shown};
ghost use Rattle.tow_semantics.specs.Pages as model;
ghost use Rattle.tow_semantics.specs.Pages.{html, name_line};

use crate::escapes::{Part, append_escaped};
use crate::html::append_html;
use std::alloc::{AllocError, Global};
use tow_folder::Name;
use tow_model::{Bytes, NoMemory};

/// The page of the names, which lie under the path. Takes memory for it.
pub(crate) fn listing_of(alloc: Global, path: &[u8], names: &[Name]) -> Result<Bytes, NoMemory>
    ensures { IfOk result (λ bytes. bytes
        ≡ model.listing_of path.now (map name_shown names.now)) }
{
    let mut out = Vec::new(alloc);
    out.extend_from_slice(b"<!DOCTYPE html>\n<html><head><title>Index of ")?;
    append_html(&mut out, path)?;
    out.extend_from_slice(b"</title></head><body>\n<ul>\n")?;
    append_names(&mut out, names)?;
    out.extend_from_slice(b"</ul>\n</body></html>\n")?;
    Ok(Bytes::from_vec(out))
}

/// Writes the line of each name.
fn append_names(out: &mut Vec<u8>, names: &[Name]) -> Result<(), AllocError>
    ensures { OnOk result (out.new.items
        ≡ out.old.items ++ flat_map (λ name. name_line (name_shown name)) names.now) }
{
    for name in names {
        append_name(out, name)?;
    }
    Ok(())
}

/// Writes a name as the line of a list, which leads to what the name stands for.
fn append_name(out: &mut Vec<u8>, name: &Name) -> Result<(), AllocError>
    ensures { OnOk result (out.new.items ≡ out.old.items ++ name_line (name_shown name.now)) }
{
    let ending = ending_of(name);
    out.extend_from_slice(b"<li><a href=\"")?;
    append_escaped(out, Part::Name, name.text.as_slice())?;
    out.extend_from_slice(ending)?;
    out.extend_from_slice(b"\">")?;
    append_html(out, name.text.as_slice())?;
    out.extend_from_slice(ending)?;
    out.extend_from_slice(b"</a></li>\n")?;
    Ok(())
}

/// What follows the name.
fn ending_of(name: &Name) -> &'static [u8]
    ensures value { result.now ≡ (if name.now.directory then codes "/" else []) }
    ensures plain { html result.now ≡ result.now }
{
    if name.directory { b"/" } else { b"" }
}
