//! The default handler, over an empty folder.

ghost use Rattle.std.specs.Prelude.{◌≡◌, [], ◌∷◌, OnOk, codes};
ghost use Rattle.tow_model.specs.Texts.{is_among};
ghost use Rattle.tow_site.specs.Walking.{Defaults};

use std::alloc::Global;
use tow_effect::{answer, set_field};
use tow_model::{Bytes, Choice, NoMemory, Record, Request};

/// Answers as the default handler does over an empty folder: with 405 to a method other than GET and HEAD, and else with
/// 404. Takes memory for the field that names the methods.
pub fn answer_by_default(
    alloc: Global,
    request: &Request,
    state: &mut Record,
) -> Result<(), NoMemory>
    ensures defaults { OnOk result (Defaults request.now state.old state.new) }
    ensures empty { OnOk result (state.new.choice ≡ Choice.Empty) }
{
    if is_served(request.method.as_slice()) {
        answer(404, state);
    } else {
        let methods = Bytes::from_slice(alloc, b"GET, HEAD")?;
        set_field(alloc, &mut state.fields, b"allow", methods)?;
        answer(405, state);
    }
    Ok(())
}

fn is_served(method: &[u8]) -> bool
    ensures { result ≡ is_among method.now (codes "GET" ∷ codes "HEAD" ∷ []) }
{
    method == b"GET".as_slice() || method == b"HEAD".as_slice()
}
