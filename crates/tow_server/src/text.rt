//! The text that a command is given: reading it, and handing its source back.

ghost use Rattle.std.specs.Prelude.{◌≡◌, IfOk, IfErr};
ghost use Rattle.tow_host.specs.Held.{with_text};
ghost use Rattle.tow_server.specs.Steps.{LacksText, LoadsText};

use crate::returning::give_back;
use crate::status::Status;
use std::alloc::Global;
use tow_host::{Host, HostFault};
use tow_link::{Whole, read_whole};
use tow_model::limits::MAX_TEXT_LEN;

/// A text as it was read: its source, and its bytes, of which there is one more than a text may have if it is too long.
#[derive(Drop)]
pub struct Loaded<T: Drop> {
    pub source: T,
    pub bytes: Vec<u8>,
}

/// Hands the source of a text back.
pub fn return_text<H: Host>(alloc: Global, host: &mut H, source: H::Text)
    ensures { H.held host.new ≡ with_text (H.Text.shows source) (H.held host.old) }
{
    give_back(alloc, host, Some(source), None);
}

/// Reads the host's text of this name, up to one byte more than a text may have. If that is not to be had, its source was
/// handed back, and the status says why. Takes memory for the bytes.
#[tactic(auto, using(crate::proofs::Joining::lacks_call, crate::proofs::Joining::lacks_memory, crate::proofs::Joining::lacks_rest))]
pub fn load_text<H: Host>(
    alloc: Global,
    host: &mut H,
    name: &str,
) -> Result<Loaded<H::Text>, Status>
    ensures loads { IfOk result (λ loaded.
        LoadsText name.now (H.Text.shows loaded.source) loaded.bytes.items (H.held host.old)
        (H.held host.new)) }
    ensures lacks { IfErr result (λ status. LacksText name.now status (H.held host.old)
        (H.held host.new)) }
{
    let mut source = match host.text(name) {
        Ok(source) => source,
        Err(HostFault::Failed) => return Err(Status::HostFault),
        Err(HostFault::NoMemory) => return Err(Status::NoMemory),
    };
    match read_whole(alloc, &mut source, MAX_TEXT_LEN) {
        Whole::Bytes(bytes) | Whole::TooLong(bytes) => Ok(Loaded { source, bytes }),
        Whole::Failed => {
            return_text(alloc, host, source);
            Err(Status::HostFault)
        }
        Whole::NoMemory => {
            return_text(alloc, host, source);
            Err(Status::NoMemory)
        }
    }
}
