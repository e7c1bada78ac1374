//! Which page there is for a request.

ghost use Rattle.std.specs.Prelude.{◌≡◌, ◌++◌, ◌∷◌, ◌≤◌, [], codes, IfOk, IfSome};
ghost use Rattle.tow_faults.specs.Faults.{KeepsOtherFaults, faults_for};
ghost use Rattle.tow_link.specs.Data.{Rose};
ghost use Rattle.tow_model.specs.Texts.{is_among};
ghost use Rattle.tow_semantics.specs.Pages.{found_page};
ghost use Rattle.tow_page.specs.Answers.{CanBeGiven, IsPage};

use crate::directory::directory_page;
use crate::file::file_page;
use crate::servable::is_servable;
use std::alloc::{AllocError, Global};
use tow_folder::Folder;
use tow_model::{NoMemory, Page, Record, Request};

/// What the folder has for the record's path, which stands after the location; a directory without
/// a welcome file is listed if `listing` says so. `k` is the number, from 0, of the connection that
/// asks. A file costs one look, a directory one more for each welcome file until one is there;
/// names are asked for only for a listing. Takes memory for the path, and for what the page holds.
/// `FolderFault` comes only if the folder counted a fault for the connection.
pub fn decide<F: Folder>(
    alloc: Global,
    folder: &mut F,
    k: u32,
    location: &[u8],
    listing: bool,
    request: &Request,
    x: &Record,
) -> Page
    ensures page { IfSome (F.shows folder.old).told (λ files. IsPage
        (found_page files location.now listing request.now x.now) result) }
    ensures given { CanBeGiven result }
    ensures told { (F.shows folder.new).told ≡ (F.shows folder.old).told }
    ensures failed { result ≡ Page.FolderFault → Rose (faults_for (F.shows folder.old).faults k)
        (faults_for (F.shows folder.new).faults k) }
    ensures later { faults_for (F.shows folder.old).faults k
        ≤ faults_for (F.shows folder.new).faults k }
    ensures others { KeepsOtherFaults (F.shows folder.old).faults (F.shows folder.new).faults k }
{
    match find_page(alloc, folder, k, location, listing, request, x) {
        Ok(page) => page,
        Err(NoMemory) => Page::NoMemory,
    }
}

/// The page for the method and the full path.
fn find_page<F: Folder>(
    alloc: Global,
    folder: &mut F,
    k: u32,
    location: &[u8],
    listing: bool,
    request: &Request,
    x: &Record,
) -> Result<Page, NoMemory>
    ensures page { IfSome (F.shows folder.old).told (λ files. IfOk result (IsPage
        (found_page files location.now listing request.now x.now))) }
    ensures given { IfOk result CanBeGiven }
    ensures told { (F.shows folder.new).told ≡ (F.shows folder.old).told }
    ensures failed { IfOk result (λ page. page ≡ Page.FolderFault
        → Rose (faults_for (F.shows folder.old).faults k)
        (faults_for (F.shows folder.new).faults k)) }
    ensures later { faults_for (F.shows folder.old).faults k
        ≤ faults_for (F.shows folder.new).faults k }
    ensures others { KeepsOtherFaults (F.shows folder.old).faults (F.shows folder.new).faults k }
{
    if !reads(request.method.as_slice()) {
        return Ok(Page::BadMethod);
    }
    let path = joined(alloc, location, x.path.as_slice())?;
    if !is_servable(&path) {
        return Ok(Page::NotFound);
    }
    if path.ends_with(b"/") {
        directory_page(alloc, folder, k, &path, listing, request, x)
    } else {
        file_page(alloc, folder, k, path, request, x)
    }
}

/// Whether the method only reads.
fn reads(method: &[u8]) -> bool
    ensures { result ≡ is_among method.now (codes "GET" ∷ codes "HEAD" ∷ []) }
{
    method == b"GET".as_slice() || method == b"HEAD".as_slice()
}

/// The location with the path after it. Takes memory once.
fn joined(alloc: Global, location: &[u8], path: &[u8]) -> Result<Vec<u8>, AllocError>
    ensures { IfOk result (λ full. full.items ≡ location.now ++ path.now) }
{
    let mut full = Vec::with_capacity(alloc, location.len().saturating_add(path.len()))?;
    full.extend_from_slice(location)?;
    full.extend_from_slice(path)?;
    Ok(full)
}
