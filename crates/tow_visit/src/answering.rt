//! What a folder answers to a question, as a line.

ghost use Rattle.std.specs.Prelude.{◌≡◌, ◌++◌, IfOk, OnOk, codes, decimal, flat_map, length, string_bytes};
ghost use Rattle.tow_faults.specs.Faults.{faults_for};
ghost use Rattle.tow_folder.specs.Folders.{PartFits};
ghost use Rattle.tow_link.specs.Data.{Rose};
ghost use Rattle.tow_visit.specs.Lines.{look_line, name_part, names_line, part_line};

use crate::question::Question;
use percent_encoding::{NON_ALPHANUMERIC, percent_encode};
use std::alloc::{AllocError, Global};
use tow_disk::DiskFolder;
use tow_folder::{Folder, Listed, Look, Name, Part};

/// Asks the folder, and puts its answer into a line. Takes memory.
#[tactic(auto, using(crate::proofs::Failing::look_fails, crate::proofs::Failing::part_fails, crate::proofs::Failing::names_fail, crate::proofs::Failing::count_is_told))]
pub fn answer(
    alloc: Global,
    folder: &mut DiskFolder,
    question: &Question,
) -> Result<String, AllocError>
    ensures failed { IfOk result (λ line. string_bytes line ≡ codes "failed"
        → Rose (faults_for (⟦<DiskFolder as Folder>⟧.shows folder.old).faults 0)
        (faults_for (⟦<DiskFolder as Folder>⟧.shows folder.new).faults 0)) }
{
    match question {
        Question::Look(path) => looked(alloc, folder.look(0, path.bytes.as_slice())),
        Question::Names(path) => named(alloc, folder.names(0, path.bytes.as_slice())),
        Question::Read { path, from, room } => {
            let mut to = vec![in alloc; 0; room.get() as usize]?;
            let part = folder.read_at(0, path.bytes.as_slice(), *from, &mut to);
            parted(alloc, part, &to)
        }
        Question::Faults => format!(in alloc; "faults {}", folder.faults()),
    }
}

/// What a look found.
fn looked(alloc: Global, look: Look) -> Result<String, AllocError>
    ensures { IfOk result (λ line. string_bytes line ≡ look_line look) }
{
    match look {
        Look::File { len, second } => file_line(alloc, len, second),
        Look::Directory => String::from_str(alloc, "directory"),
        Look::Absent => String::from_str(alloc, "absent"),
        Look::Failed => String::from_str(alloc, "failed"),
    }
}

/// That there is a file of this length and this second.
fn file_line(alloc: Global, len: u64, second: u64) -> Result<String, AllocError>
    ensures { IfOk result (λ line. string_bytes line
        ≡ codes "file " ++ (decimal len ++ (codes " " ++ decimal second))) }
{
    format!(in alloc; "file {len} {second}")
}

/// What a read put at the front of the buffer.
fn parted(alloc: Global, part: Part, buffer: &[u8]) -> Result<String, AllocError>
    requires { PartFits part (length buffer.now) }
    ensures { IfOk result (λ line. string_bytes line ≡ part_line part buffer.now) }
{
    match part {
        Part::Got(count) => {
            let bytes = percent_encode(&buffer[..count], NON_ALPHANUMERIC);
            let mut line = String::from_str(alloc, "got ")?;
            bytes.append_to(&mut line)?;
            Ok(line)
        }
        Part::Failed => String::from_str(alloc, "failed"),
    }
}

/// The names of a directory.
fn named(alloc: Global, listed: Listed) -> Result<String, AllocError>
    ensures { IfOk result (λ line. string_bytes line ≡ names_line listed) }
{
    match listed {
        Listed::Names(names) => {
            let mut line = String::from_str(alloc, "names")?;
            append_names(&mut line, names.as_slice())?;
            Ok(line)
        }
        Listed::Failed => String::from_str(alloc, "failed"),
        Listed::NoMemory => Err(AllocError),
    }
}

/// Writes each name after the line.
fn append_names(line: &mut String, names: &[Name]) -> Result<(), AllocError>
    ensures { OnOk result (string_bytes line.new
        ≡ string_bytes line.old ++ flat_map name_part names.now) }
{
    for name in names {
        append_name(line, name)?;
    }
    Ok(())
}

/// Writes a name after the line, with a blank before it.
fn append_name(line: &mut String, name: &Name) -> Result<(), AllocError>
    ensures { OnOk result (string_bytes line.new ≡ string_bytes line.old ++ name_part name.now) }
{
    line.push_str(" ")?;
    percent_encode(name.text.as_slice(), NON_ALPHANUMERIC).append_to(line)?;
    line.push_str(if name.directory { "/" } else { "" })?;
    Ok(())
}
