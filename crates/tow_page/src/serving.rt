//! A file as it is found.

ghost use Rattle.std.specs.Prelude.{◌≡◌, true};
ghost use Rattle.tow_folder.specs.Folders.{is_askable};
ghost use Rattle.tow_semantics.specs.Pages.{page_for};
ghost use Rattle.tow_page.specs.Answers.{CanBeGiven, served_at};

use crate::unchanged::is_unchanged;
use tow_model::{Bytes, Page, Record, Request};

/// The file of this path, this length in bytes and this second, unless the client has it as it is.
/// Takes no memory.
pub(crate) fn served(path: Bytes, len: u64, second: u64, request: &Request, x: &Record) -> Page
    requires { is_askable path ≡ true }
    ensures page { result ≡ page_for (served_at request.now x.now path len second) }
    ensures given { CanBeGiven result }
{
    if is_unchanged(request, x, second) {
        Page::NotModified { second }
    } else {
        Page::Serve { path, len, second }
    }
}
