//! The site of the text that a command is given: the text is read and compiled, or refused.

ghost use Rattle.std.specs.Prelude.{◌≡◌, true, IfOk, IfErr};
ghost use Rattle.tow_site.specs.Compiled.{IsFaultOfText, IsSiteOf};
ghost use Rattle.tow_server.specs.Steps.{LacksSite, OpensSite};

use crate::refusal::refuse_fault;
use crate::status::Status;
use crate::text::load_text;
use std::alloc::Global;
use tow_host::Host;
use tow_site::{Fault, Site, compile};

/// The site of a text, and the text's source.
#[derive(Drop)]
pub struct Opened<T: Drop> {
    pub source: T,
    pub site: Site,
}

/// Compiles a text, whose patterns the host makes. Takes memory as `compile` does.
fn compile_text<H: Host>(alloc: Global, host: &mut H, text: &[u8]) -> Result<Site, Fault>
    ensures ok { IfOk result (λ site. IsSiteOf text.now site) }
    ensures fault { IfErr result (λ fault.
        IsFaultOfText text.now (H.held host.old).larges (H.held host.new).larges fault) }
    ensures made { IfOk result (λ _. H.held host.new ≡ H.held host.old) }
    ensures rest { H.held host.new
        ≡ record (H.held host.old) { larges = (H.held host.new).larges } }
{
    compile(alloc, text, host)
}

/// Reads and compiles the host's text of this name. If that gives no site, the text's source was handed back, its fault was
/// printed if it has one, and the status says why. Takes memory for the text and its site.
#[tactic(auto, using(crate::proofs::Joining::opens_site, crate::proofs::Joining::lacks_text, crate::proofs::Joining::lacks_tree))]
pub fn open_site<H: Host>(
    alloc: Global,
    host: &mut H,
    name: &str,
) -> Result<Opened<H::Text>, Status>
    requires { (H.held host.old).is_home ≡ true }
    ensures opens { IfOk result (λ opened.
        OpensSite name.now opened.site (H.Text.shows opened.source) (H.held host.old)
        (H.held host.new)) }
    ensures lacks { IfErr result (λ status. LacksSite name.now status (H.held host.old)
        (H.held host.new)) }
{
    let loaded = match load_text(alloc, host, name) {
        Ok(loaded) => loaded,
        Err(status) => return Err(status),
    };
    match compile_text(alloc, host, loaded.bytes.as_slice()) {
        Ok(site) => Ok(Opened {
            source: loaded.source,
            site,
        }),
        Err(fault) => Err(refuse_fault(alloc, host, loaded.source, fault)),
    }
}
