//! A turn that reads.

ghost use Rattle.std.specs.Prelude.{◌≡◌, ◌≤◌, ◌<◌, ◌++◌, ◌⊎◌, true, length, IsTrue};
ghost use Rattle.tow_link.specs.Data.{Rose};
ghost use Rattle.tow_model.specs.declared.account.End.{End};
ghost use Rattle.tow_conn.specs.Turns.{BothTell, open_bytes, EndIsTold};

use crate::progress::{Progress, Turn};
use tow_link::{Read, Source};
use tow_model::End;

/// Reads some more of the input, or finds its end. The bytes that stand open stay the same.
pub fn read_more<I: Source>(input: &mut I, progress: &mut Progress) -> Turn
    requires room { length progress.old.inbox < 65536 }
    requires told { EndIsTold progress.old (I.shows input.old).told }
    ensures number { progress.new.number ≡ progress.old.number }
    ensures same { BothTell (I.shows input.old).told (I.shows input.new).told
        (λ t u. open_bytes progress.old t
        ≡ open_bytes progress.new u) }
    ensures told { EndIsTold progress.new (I.shows input.new).told }
    ensures more { result ≡ Turn.Goes
        → (length progress.old.inbox < length progress.new.inbox
        × progress.new.ended ≡ progress.old.ended)
        ⊎ (length progress.old.inbox ≡ length progress.new.inbox × IsTrue progress.new.ended) }
    ensures ends { (end : End) → result ≡ Turn.Ended end → end ≡ End.LinkFault }
    ensures later { (I.shows input.old).faults ≤ (I.shows input.new).faults }
    ensures failed { result ≡ Turn.Ended End.LinkFault
        → Rose (I.shows input.old).faults (I.shows input.new).faults }
{
    match progress.inbox.fill(input) {
        Read::Got(_count) => Turn::Goes,
        Read::End => {
            progress.ended = true;
            Turn::Goes
        }
        Read::Failed => Turn::Ended(End::LinkFault),
    }
}
