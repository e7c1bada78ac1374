//! Refusing a text: its source is handed back, and the line that says why is printed.

ghost use Rattle.std.specs.Prelude.{◌≡◌, true};
ghost use Rattle.tow_server.specs.Steps.{RefusesFault, RefusesText};

use crate::lines::fault_line;
use crate::output::print_line;
use crate::status::Status;
use crate::text::return_text;
use std::alloc::Global;
use tow_host::Host;
use tow_site::Fault;

/// Refuses a text with this line.
#[tactic(auto, using(crate::proofs::Joining::refuses_text))]
pub fn refuse_text<H: Host>(alloc: Global, host: &mut H, source: H::Text, line: &[u8])
    requires { (H.held host.old).is_home ≡ true }
    ensures { RefusesText line.now (H.Text.shows source) (H.held host.old) (H.held host.new) }
{
    return_text(alloc, host, source);
    print_line(alloc, host, line);
}

/// Refuses a text for its fault. Takes memory for the line; without it nothing is printed.
#[tactic(auto, using(crate::proofs::Joining::refuses_nothing, crate::proofs::Joining::refuses_fault))]
pub fn refuse_fault<H: Host>(alloc: Global, host: &mut H, source: H::Text, fault: Fault) -> Status
    requires { (H.held host.old).is_home ≡ true }
    ensures { RefusesFault fault (H.Text.shows source) result (H.held host.old) (H.held host.new) }
{
    let Fault::Text { kind, line, column } = fault else {
        return_text(alloc, host, source);
        return Status::NoMemory;
    };
    match fault_line(alloc, kind, line, column) {
        Ok(line) => {
            refuse_text(alloc, host, source, line.as_slice());
            Status::Text
        }
        Err(_memory) => {
            return_text(alloc, host, source);
            Status::NoMemory
        }
    }
}
