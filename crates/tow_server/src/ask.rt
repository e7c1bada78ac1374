//! The command `ask`.

ghost use Rattle.std.specs.Prelude.{◌≡◌, ◌<◌, true, IsTrue};
ghost use Rattle.std.specs.Option.{ForSome};
ghost use Rattle.tow_model.specs.declared.limits.TheConstants.{FIRST_UNDATED};
ghost use Rattle.tow_host.specs.Moments.{clock_table};
ghost use Rattle.tow_site.specs.Built.{is_built};
ghost use Rattle.tow_server.specs.Ask.{Asked};
ghost use Rattle.tow_server.specs.Steps.{AnswersInput};
ghost use Rattle.tow_server.specs.Texts.{HandsBack};

use crate::lines::UNBUILT;
use crate::refusal::refuse_text;
use crate::returning::give_back;
use crate::site::open_site;
use crate::status::Status;
use std::alloc::Global;
use tow_conn::ask_whole;
use tow_host::Host;
use tow_model::End;
use tow_site::{Site, is_built};

/// Answers the host's input under a site, whose text's source is handed back with the streams. Takes memory for the
/// connection.
#[tactic(auto, using(crate::proofs::Joining::answered))]
fn answer_input<H: Host>(
    alloc: Global,
    host: &mut H,
    source: H::Text,
    site: &Site,
    moment: Option<u64>,
) -> Status
    requires home { (H.held host.old).is_home ≡ true }
    requires small { ForSome moment (λ second. second < FIRST_UNDATED) }
    requires built { IsTrue (is_built site.now.tree) }
    ensures { AnswersInput site.now.tree (clock_table (H.held host.old).moments moment)
        (H.Text.shows source) result (H.held host.old) (H.held host.new) }
{
    let mut clock = host.clock(moment);
    let mut link = host.lend();
    let end = ask_whole(alloc, site, &mut link, &mut clock);
    give_back(alloc, host, Some(source), Some(link));
    match end {
        End::Done => Status::Done,
        End::LinkFault => Status::StreamFault,
        End::NoMemory => Status::NoMemory,
        End::FolderFault => unreachable!(),
    }
}

/// Answers the host's input under the text of this name, at one moment in seconds since 1970 or at the clock's moments. No
/// folder is asked yet, so `_dir` is not looked at. Takes memory for the text, its site and the connection.
pub fn run_ask<H: Host>(
    alloc: Global,
    host: &mut H,
    _dir: &str,
    text: &str,
    moment: Option<u64>,
) -> Status
    requires home { (H.held host.old).is_home ≡ true }
    requires small { ForSome moment (λ second. second < FIRST_UNDATED) }
    ensures asked { Asked text.now moment result (H.held host.old) (H.held host.new) }
    ensures back { HandsBack (H.held host.old) (H.held host.new) }
{
    match open_site(alloc, host, text) {
        Ok(opened) => {
            // for now: a site that uses what is not built yet is refused, though its text is right.
            if !is_built(opened.site.tree()) {
                refuse_text(alloc, host, opened.source, UNBUILT);
                return Status::Text;
            }
            answer_input(alloc, host, opened.source, &opened.site, moment)
        }
        Err(status) => status,
    }
}
