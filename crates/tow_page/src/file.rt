//! The page of a path without a `/` at its end.

ghost use Rattle.std.specs.Prelude.{◌≡◌, ◌≤◌, IfOk, IfSome, codes, false, true};
ghost use Rattle.tow_faults.specs.Faults.{KeepsOtherFaults, faults_for};
ghost use Rattle.tow_link.specs.Data.{Rose};
ghost use Rattle.tow_model.specs.Texts.{ends_in};
ghost use Rattle.tow_semantics.specs.Pages as model;
ghost use Rattle.tow_semantics.specs.Pages.{is_servable};
ghost use Rattle.tow_page.specs.Answers.{CanBeGiven, IsPage};

use crate::location::directory_location;
use crate::serving::served;
use std::alloc::Global;
use tow_folder::{Folder, Look};
use tow_model::{Bytes, NoMemory, Page, Record, Request};

/// The file at the path, or the address of a directory with its `/`. Looks once. Takes memory for
/// the address alone.
pub(crate) fn file_page<F: Folder>(
    alloc: Global,
    folder: &mut F,
    k: u32,
    path: Vec<u8>,
    request: &Request,
    x: &Record,
) -> Result<Page, NoMemory>
    requires servable { is_servable path.items ≡ true }
    requires file { ends_in (codes "/") path.items ≡ false }
    ensures page { IfSome (F.shows folder.old).told (λ files. IfOk result (IsPage
        (model.file_page files request.now x.now path.items))) }
    ensures given { IfOk result CanBeGiven }
    ensures told { (F.shows folder.new).told ≡ (F.shows folder.old).told }
    ensures failed { IfOk result (λ page. page ≡ Page.FolderFault
        → Rose (faults_for (F.shows folder.old).faults k)
        (faults_for (F.shows folder.new).faults k)) }
    ensures later { faults_for (F.shows folder.old).faults k
        ≤ faults_for (F.shows folder.new).faults k }
    ensures others { KeepsOtherFaults (F.shows folder.old).faults (F.shows folder.new).faults k }
{
    match folder.look(k, &path) {
        Look::File { len, second } => Ok(served(Bytes::from_vec(path), len, second, request, x)),
        Look::Directory => {
            let location = directory_location(alloc, x)?;
            Ok(Page::Redirect(location))
        }
        Look::Absent => Ok(Page::NotFound),
        Look::Failed => Ok(Page::FolderFault),
    }
}
