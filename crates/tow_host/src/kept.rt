//! What is handed back to a host, and how a host holds it.

ghost use Rattle.std.specs.Prelude.{◌≡◌};
ghost use Rattle.std.specs.Option.{option_or};
ghost use Rattle.tow_host.specs.Held.{parts_counted, parts_held};

use tow_model::Account;

/// What is handed back to a host. A part that is not there leaves what the host holds.
#[derive(Drop)]
pub struct Kept<T: Drop, J: Drop, F: Drop, G: Drop> {
    pub text: Option<T>,
    pub streams: Option<J>,
    /// None at all leaves those that the host holds.
    pub folders: Vec<F>,
    /// In the order of their numbers, from 0; none at all leaves those that the host holds.
    pub logs: Vec<G>,
    /// The account of connection 0, where a command answers just one.
    pub account: Option<Account>,
}

/// Holds a part that was handed back, if it is there. Takes no memory.
pub fn hold_part<P: Drop>(held: &mut Option<P>, given: Option<P>)
    ensures { held.new ≡ option_or given held.old }
{
    if given.is_some() {
        *held = given;
    }
}

/// Holds the parts of one kind that were handed back, if there are any. Takes no memory.
pub fn hold_parts<P: Drop>(held: &mut Vec<P>, given: Vec<P>)
    ensures { held.new.items ≡ parts_held given.items held.old.items }
{
    if !given.is_empty() {
        *held = given;
    }
}

/// How many parts of one kind were handed back, after these. The count stands still at its last value.
pub fn count_parts<P>(returned: u64, given: &Vec<P>) -> u64
    ensures { result ≡ parts_counted given.now.items returned }
{
    if given.is_empty() {
        return returned;
    }
    returned.saturating_add(given.len() as u64)
}
