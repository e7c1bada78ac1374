//! Printing through the host's output.

ghost use Rattle.std.specs.Prelude.{◌≡◌, true, false};
ghost use Rattle.std.specs.Io.KnownBytes.{append_known};
ghost use Rattle.tow_link.specs.Data.{Rose};
ghost use Rattle.tow_link.specs.Runs.{AppendsPart};
ghost use Rattle.tow_server.specs.Texts.{Prints};

use crate::returning::give_back;
use std::alloc::Global;
use tow_host::Host;
use tow_link::write_all;

/// Prints a line, and says whether it was printed whole; if the output fails, a front of it is printed.
#[tactic(auto, using(crate::proofs::Joining::printed))]
pub fn print_line<H: Host>(alloc: Global, host: &mut H, line: &[u8]) -> bool
    requires { (H.held host.old).is_home ≡ true }
    ensures prints { Prints (H.held host.old).output (H.held host.new).output line.now }
    ensures whole { result ≡ true
        → (H.held host.new).output.written
        ≡ append_known (H.held host.old).output.written line.now }
    ensures part { AppendsPart (H.held host.old).output.written (H.held host.new).output.written
        line.now }
    ensures failed { result ≡ false
        → Rose (H.held host.old).output.faults (H.held host.new).output.faults }
    ensures rest { H.held host.new
        ≡ record (H.held host.old) { output = (H.held host.new).output } }
{
    let mut link = host.lend();
    let printed = write_all(&mut link.output, line).is_ok();
    give_back(alloc, host, None, Some(link));
    printed
}
