//! The page of a directory.

ghost use Rattle.std.specs.Prelude.{◌≡◌, ◌≤◌, ◌<◌, ◌+◌, ◌∷◌, [], IfOk, IfSome, MatchOption, OnSome, Ok, Some, codes, drop, option_map, true};
ghost use Rattle.tow_faults.specs.Faults.{KeepsOtherFaults, faults_for};
ghost use Rattle.tow_folder.specs.Folders.{directory_of, is_askable};
ghost use Rattle.tow_link.specs.Data.{Rose};
ghost use Rattle.tow_model.specs.Texts.{ends_in};
ghost use Rattle.tow_semantics.specs.Files.{names_in};
ghost use Rattle.tow_semantics.specs.Pages as model;
ghost use Rattle.tow_semantics.specs.Pages.{is_servable, welcome_file, welcome_names};
ghost use Rattle.tow_page.specs.Segments.{Plain};
ghost use Rattle.tow_page.specs.Answers.{CanBeGiven, IsPage, IsPageOr};

use crate::listing::listing_of;
use crate::ordering::in_order;
use crate::serving::served;
use std::alloc::Global;
use tow_folder::{Folder, Listed, Look};
use tow_model::{Bytes, NoMemory, Page, Record, Request};

/// No name of a welcome file has more bytes.
const LONGEST_WELCOME: usize = 12;

/// The welcome file of the directory, or its listing. Looks at the directory and at its welcome
/// files until one is there. Takes memory for the path of that file, and for the listing.
pub(crate) fn directory_page<F: Folder>(
    alloc: Global,
    folder: &mut F,
    k: u32,
    path: &[u8],
    listing: bool,
    request: &Request,
    x: &Record,
) -> Result<Page, NoMemory>
    requires servable { is_servable path.now ≡ true }
    requires directory { ends_in (codes "/") path.now ≡ true }
    ensures page { IfSome (F.shows folder.old).told (λ files. IfOk result (IsPage
        (model.directory_page files listing request.now x.now path.now))) }
    ensures given { IfOk result CanBeGiven }
    ensures told { (F.shows folder.new).told ≡ (F.shows folder.old).told }
    ensures failed { IfOk result (λ page. page ≡ Page.FolderFault
        → Rose (faults_for (F.shows folder.old).faults k)
        (faults_for (F.shows folder.new).faults k)) }
    ensures later { faults_for (F.shows folder.old).faults k
        ≤ faults_for (F.shows folder.new).faults k }
    ensures others { KeepsOtherFaults (F.shows folder.old).faults (F.shows folder.new).faults k }
{
    let directory = without_slash(path);
    match folder.look(k, directory) {
        Look::Directory => {}
        Look::File { .. } => return Ok(Page::NotFound),
        Look::Absent => return Ok(Page::NotFound),
        Look::Failed => return Ok(Page::FolderFault),
    }
    match welcome_page(alloc, folder, k, path, request, x)? {
        Some(page) => Ok(page),
        None if listing => listing_page(alloc, folder, k, directory, x),
        None => Ok(Page::Forbidden),
    }
}

/// The directory's path without the `/` at its end; the root keeps it.
fn without_slash(path: &[u8]) -> &[u8]
    requires servable { is_servable path.now ≡ true }
    requires directory { ends_in (codes "/") path.now ≡ true }
    ensures askable { is_askable result.now ≡ true }
    ensures of { directory_of result.now ≡ path.now }
{
    if path.len() == 1 {
        return path;
    }
    &path[..path.len() - 1]
}

/// The name of the welcome file of this place, from 0, if there is one.
#[tactic(auto, using(crate::proofs::Welcome::first_plain, crate::proofs::Welcome::second_plain, crate::proofs::Welcome::third_plain, crate::proofs::Welcome::fourth_plain, crate::proofs::Welcome::none_left))]
fn welcome_name(at: usize) -> Option<&'static [u8]>
    ensures name { MatchOption result (drop at welcome_names ≡ []) (λ name. drop at welcome_names
        ≡ name.now ∷ drop (at + 1) welcome_names) }
    ensures plain { IfSome result (λ name. Plain name.now) }
    ensures within { OnSome result (at < 4) }
{
    match at {
        0 => Some(b"index.html"),
        1 => Some(b"index.htm"),
        2 => Some(b"default.html"),
        3 => Some(b"default.htm"),
        _ => None,
    }
}

/// The page of the first welcome file of the directory, if there is one. Takes memory once, for its
/// path.
fn welcome_page<F: Folder>(
    alloc: Global,
    folder: &mut F,
    k: u32,
    directory: &[u8],
    request: &Request,
    x: &Record,
) -> Result<Option<Page>, NoMemory>
    requires servable { is_servable directory.now ≡ true }
    requires directory { ends_in (codes "/") directory.now ≡ true }
    ensures page { IfSome (F.shows folder.old).told (λ files. IfOk result (IsPageOr
        (option_map (model.served request.now x.now)
        (welcome_file files directory.now welcome_names)))) }
    ensures given { IfOk result (λ page. IfSome page CanBeGiven) }
    ensures told { (F.shows folder.new).told ≡ (F.shows folder.old).told }
    ensures failed { result ≡ Ok (Some Page.FolderFault)
        → Rose (faults_for (F.shows folder.old).faults k)
        (faults_for (F.shows folder.new).faults k) }
    ensures later { faults_for (F.shows folder.old).faults k
        ≤ faults_for (F.shows folder.new).faults k }
    ensures others { KeepsOtherFaults (F.shows folder.old).faults (F.shows folder.new).faults k }
{
    let capacity = directory.len().saturating_add(LONGEST_WELCOME);
    let mut path = Vec::with_capacity(alloc, capacity)?;
    path.extend_from_slice(directory)?;
    let mut at = 0;
    while let Some(name) = welcome_name(at) {
        path.truncate(directory.len());
        path.extend_from_slice(name)?;
        match folder.look(k, &path) {
            Look::File { len, second } => {
                let page = served(Bytes::from_vec(path), len, second, request, x);
                return Ok(Some(page));
            }
            Look::Directory => {}
            Look::Absent => {}
            Look::Failed => return Ok(Some(Page::FolderFault)),
        }
        at += 1;
    }
    Ok(None)
}

/// The listing of the directory. Takes memory for its names and its bytes.
fn listing_page<F: Folder>(
    alloc: Global,
    folder: &mut F,
    k: u32,
    path: &[u8],
    x: &Record,
) -> Result<Page, NoMemory>
    requires { is_askable path.now ≡ true }
    ensures page { IfSome (F.shows folder.old).told (λ files. IfOk result (IsPage
        (model.Listing (model.listing_of x.now.path (names_in files (directory_of path.now)))))) }
    ensures given { IfOk result CanBeGiven }
    ensures told { (F.shows folder.new).told ≡ (F.shows folder.old).told }
    ensures failed { IfOk result (λ page. page ≡ Page.FolderFault
        → Rose (faults_for (F.shows folder.old).faults k)
        (faults_for (F.shows folder.new).faults k)) }
    ensures later { faults_for (F.shows folder.old).faults k
        ≤ faults_for (F.shows folder.new).faults k }
    ensures others { KeepsOtherFaults (F.shows folder.old).faults (F.shows folder.new).faults k }
{
    match folder.names(k, path) {
        Listed::Names(names) => {
            let names = in_order(names);
            let bytes = listing_of(alloc, x.path.as_slice(), names.as_slice())?;
            Ok(Page::Listing(bytes))
        }
        Listed::Failed => Ok(Page::FolderFault),
        Listed::NoMemory => Err(NoMemory),
    }
}
