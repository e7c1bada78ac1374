//! What a turn needs before it takes another step.

ghost use Rattle.std.specs.Prelude.{◌≡◌, Option};
ghost use Rattle.tow_by_turns.specs.Needs.{need_after};

use tow_model::Role;
use tow_turns::{Then, Turn, is_loop};

/// What a turn needs before it takes another step.
#[derive(Clone, Copy, Debug, PartialEq, Eq)]
pub enum Need {
    /// The turn ends with this answer.
    Stop(Turn),
    /// The link is to be read.
    Read,
    /// The link is to be written.
    Write,
}

/// What is needed after a step; a worker leaves the link to an I/O loop.
pub(crate) fn need_of(then: Then, role: Role) -> Option<Need>
    ensures { result ≡ need_after role then }
{
    match then {
        Then::On => None,
        Then::Stop(turn) => Some(Need::Stop(turn)),
        Then::Read if is_loop(role) => Some(Need::Read),
        Then::Write if is_loop(role) => Some(Need::Write),
        Then::Read | Then::Write => Some(Need::Stop(Turn::ToLoop)),
    }
}
