//! The answer to a head that is refused.

ghost use Rattle.std.specs.Prelude.{◌≡◌, ◌<◌, ◌∷◌, [], IfOk, codes};
ghost use Rattle.tow_wire.specs.Answers.{refusal_text};
ghost use Rattle.tow_model.specs.Dates.{date_of, first_undated};
ghost use Rattle.tow_model.specs.Fields.{field};

use crate::fields::{push_date, push_field};
use std::alloc::Global;
use tow_model::{Bytes, Field, List, NoMemory};
use tow_render::head;

/// All the bytes of the answer to a head that is refused with this status, at a moment in seconds since 1970. Takes memory
/// for them.
pub fn refusal(alloc: Global, status: u16, moment: u64) -> Result<Bytes, NoMemory>
    requires { moment < first_undated }
    ensures { IfOk result (λ bytes. bytes ≡ refusal_text status moment) }
{
    let fields = refusal_fields(alloc, moment)?;
    head(alloc, status, &fields)
}

fn refusal_fields(alloc: Global, moment: u64) -> Result<List<Field>, NoMemory>
    requires { moment < first_undated }
    ensures { IfOk result (λ fields. fields
        ≡ field (codes "connection") (codes "close") ∷ field (codes "content-length") (codes "0") ∷
        field (codes "date") (date_of moment) ∷ []) }
{
    let mut fields = Vec::new(alloc);
    push_field(alloc, &mut fields, b"connection", b"close")?;
    push_field(alloc, &mut fields, b"content-length", b"0")?;
    push_date(alloc, &mut fields, moment)?;
    Ok(List::from_vec(fields))
}
