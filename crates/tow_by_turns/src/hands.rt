//! What a thread works with.

use tow_pred::Scratch;
use tow_site::Site;

/// What a thread works with on connections: the site, what searches for its patterns, and what its role has. An I/O loop has a
/// clock and a log, a worker a folder.
#[derive(Drop)]
pub struct Hands<'s, F, C, G> {
    pub site: &'s Site,
    pub scratch: Scratch<'s>,
    pub folder: Option<F>,
    pub clock: Option<C>,
    pub log: Option<G>,
}
