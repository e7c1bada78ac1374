//! The look for a page.

ghost use Rattle.std.specs.Prelude.{◌≡◌, ◌≢◌, ◌↔◌, IsTrue, false, true};
ghost use Rattle.tow_exchange.specs.Exchanges.{with_fields};
ghost use Rattle.tow_faults.specs.Faults.{faults_for};
ghost use Rattle.tow_link.specs.Data.{Rose};
ghost use Rattle.tow_walks.specs.Folders.{FolderStays, IsWorker, LeavesFolder, faults_by, may_look, told_by};
ghost use Rattle.tow_walks.specs.Walks.{Looks};

use std::alloc::Global;
use tow_exchange::{Exchange, Phase};
use tow_folder::Folder;
use tow_model::{Bytes, NoMemory, Page, Role};
use tow_page::decide;

/// What became of a look for a page.
#[derive(Clone, Copy, Debug, PartialEq, Eq)]
pub(crate) enum Looked {
    /// The exchange was given its page.
    Given,
    /// The role may not look, or there is no folder.
    ForWorker,
    FolderFault,
    NoMemory,
}

/// Looks for the page that the exchange waits for, and gives it, if the role may look. Takes memory for the page, and for
/// the fields that it adds; if it is short, nothing but the fields of the record may have changed.
pub(crate) fn look_by<F: Folder>(
    alloc: Global,
    exchange: &mut Exchange,
    role: Role,
    folder: &mut Option<F>,
    location: &Bytes,
    listing: bool,
) -> Looked
    requires waits { exchange.old.phase ≡ Phase.AwaitsPage location.now listing }
    ensures given { result ≡ Looked.Given
        → Looks (told_by F.shows folder.old) exchange.old exchange.new }
    ensures may { result ≡ Looked.Given → may_look role folder.old ≡ true }
    ensures worker { result ≡ Looked.ForWorker → may_look role folder.old ≡ false }
    ensures waits_on { result ≡ Looked.ForWorker → exchange.new ≡ exchange.old }
    ensures idle { may_look role folder.old ≡ false → result ≡ Looked.ForWorker }
    ensures fault { result ≡ Looked.FolderFault → exchange.new ≡ exchange.old }
    ensures failed { result ≡ Looked.FolderFault → Rose
        (faults_by F.shows folder.old exchange.old.connection)
        (faults_by F.shows folder.new exchange.old.connection) }
    ensures no_memory { result ≡ Looked.NoMemory → exchange.new
        ≡ with_fields exchange.new.stand.state.fields exchange.old }
    ensures asks { may_look role folder.old ≡ false → folder.new ≡ folder.old }
    ensures folder { FolderStays F.shows exchange.old.connection folder.old folder.new }
{
    if !is_worker(role) {
        return Looked::ForWorker;
    }
    match folder {
        Some(folder) => look(alloc, exchange, folder, location, listing),
        None => Looked::ForWorker,
    }
}

/// Whether the role is a worker's.
fn is_worker(role: Role) -> bool
    ensures { IsTrue result ↔ IsWorker role }
{
    matches!(role, Role::Worker(_))
}

/// Looks for the page that the exchange waits for, and gives it. Takes memory for the page, and for the fields that it adds;
/// if it is short, nothing but the fields of the record may have changed.
fn look<F: Folder>(
    alloc: Global,
    exchange: &mut Exchange,
    folder: &mut F,
    location: &Bytes,
    listing: bool,
) -> Looked
    requires waits { exchange.old.phase ≡ Phase.AwaitsPage location.now listing }
    ensures given { result ≡ Looked.Given
        → Looks (F.shows folder.old).told exchange.old exchange.new }
    ensures looks { result ≢ Looked.ForWorker }
    ensures fault { result ≡ Looked.FolderFault → exchange.new ≡ exchange.old }
    ensures failed { result ≡ Looked.FolderFault → Rose
        (faults_for (F.shows folder.old).faults exchange.old.connection)
        (faults_for (F.shows folder.new).faults exchange.old.connection) }
    ensures no_memory { result ≡ Looked.NoMemory → exchange.new
        ≡ with_fields exchange.new.stand.state.fields exchange.old }
    ensures folder { LeavesFolder exchange.old.connection (F.shows folder.old)
        (F.shows folder.new) }
{
    let page = decide(
        alloc,
        folder,
        exchange.connection(),
        location.as_slice(),
        listing,
        exchange.request(),
        exchange.state(),
    );
    if is_fault(&page) {
        return Looked::FolderFault;
    }
    if is_want(&page) {
        return Looked::NoMemory;
    }
    match exchange.give_page(alloc, page) {
        Ok(()) => Looked::Given,
        Err(NoMemory) => Looked::NoMemory,
    }
}

/// Whether the folder failed.
fn is_fault(page: &Page) -> bool
    ensures { IsTrue result ↔ (page.now ≡ Page.FolderFault) }
{
    matches!(page, Page::FolderFault)
}

/// Whether the memory was short.
fn is_want(page: &Page) -> bool
    ensures { IsTrue result ↔ (page.now ≡ Page.NoMemory) }
{
    matches!(page, Page::NoMemory)
}
