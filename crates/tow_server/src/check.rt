//! The command `check`.

ghost use Rattle.std.specs.Prelude.{◌≡◌, true};
ghost use Rattle.tow_server.specs.Check.{Checked};
ghost use Rattle.tow_server.specs.Steps.{ReportsSite};
ghost use Rattle.tow_server.specs.Texts.{HandsBack};

use crate::lines::ok_line;
use crate::output::print_line;
use crate::site::open_site;
use crate::status::Status;
use crate::text::return_text;
use std::alloc::Global;
use tow_host::Host;

/// Hands the source of a text back, and prints how many statements it has. Takes memory for the line.
#[tactic(auto, using(crate::proofs::Joining::reports_nothing, crate::proofs::Joining::reports_whole, crate::proofs::Joining::reports_part))]
fn report_site<H: Host>(alloc: Global, host: &mut H, source: H::Text, statements: u32) -> Status
    requires { (H.held host.old).is_home ≡ true }
    ensures { ReportsSite statements (H.Text.shows source) result (H.held host.old)
        (H.held host.new) }
{
    return_text(alloc, host, source);
    let Ok(line) = ok_line(alloc, statements) else {
        return Status::NoMemory;
    };
    if print_line(alloc, host, line.as_slice()) {
        Status::Done
    } else {
        Status::StreamFault
    }
}

/// Compiles the text of this name, and prints how many statements it has, or its first fault. Takes memory for the text and
/// its site.
#[tactic(auto, using(crate::proofs::Joining::checks_served, crate::proofs::Joining::checks_back, crate::proofs::Joining::checks_nothing))]
pub fn run_check<H: Host>(alloc: Global, host: &mut H, text: &str) -> Status
    requires { (H.held host.old).is_home ≡ true }
    ensures checked { Checked text.now result (H.held host.old) (H.held host.new) }
    ensures back { HandsBack (H.held host.old) (H.held host.new) }
{
    match open_site(alloc, host, text) {
        Ok(opened) => report_site(alloc, host, opened.source, opened.site.statements()),
        Err(status) => status,
    }
}
