//! Handing parts back to the host.

ghost use Rattle.std.specs.Prelude.{◌≡◌};
ghost use Rattle.tow_server.specs.Returned.{with_parts};

use std::alloc::Global;
use tow_host::{Host, Kept};
use tow_link::Joined;

/// Hands back what is there of a text's source and the streams.
///
/// for now: no command asks for a folder or a log or makes an account, so none is handed back.
pub fn give_back<H: Host>(
    alloc: Global,
    host: &mut H,
    text: Option<H::Text>,
    streams: Option<Joined<H::Input, H::Output>>,
)
    ensures { H.held host.new
        ≡ with_parts H.Text.shows H.Input.shows H.Output.shows text streams (H.held host.old) }
{
    let folders = Vec::new(alloc);
    let logs = Vec::new(alloc);
    host.take_back(Kept {
        text,
        streams,
        folders,
        logs,
        account: None,
    });
}
