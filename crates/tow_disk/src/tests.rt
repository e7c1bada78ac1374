//! A folder over a directory of the machine, which the test makes and takes away again.

use super::*;
use std::alloc::{AllocError, Global};
use std::io::ErrorKind;
use std::os::unix::fs::symlink;
use std::path::PathBuf;
use std::test::Fail;
use std::{env, fs, io};
use tow_folder::{Folder, Listed, Look, Part};

/// A new directory of this name among the machine's temporary files.
fn made(rt: HostRuntime, name: &str) -> io::Result<PathBuf> {
    let dir = env::temp_dir(&rt)?.join(rt.alloc(), name)?;
    let _old = fs::remove_dir_all(&rt, dir.as_path());
    fs::create_dir(&rt, dir.as_path())?;
    Ok(dir)
}

/// Fills the directory: files and directories in `site`, beside it a file, and links in it to both.
fn filled(rt: HostRuntime, name: &str) -> io::Result<PathBuf> {
    let dir = made(rt, name)?;
    let site = dir.join(rt.alloc(), "site")?;
    for part in ["", "d", "empty", "d/e"] {
        fs::create_dir(&rt, site.join(rt.alloc(), part)?.as_path())?;
    }
    for (file, text) in [
        ("a.txt", "hello"),
        ("none", ""),
        ("d/b c", "in d"),
        ("d/e/%41", "deep"),
        ("../outside", "secret"),
    ] {
        fs::write(&rt, site.join(rt.alloc(), file)?.as_path(), text)?;
    }
    for (link, to) in [
        ("inner", "a.txt"),
        ("outer", "../outside"),
        ("up", ".."),
        ("loop", "loop"),
        ("nowhere", "missing"),
        ("d/back", "../d"),
    ] {
        symlink(&rt, to, site.join(rt.alloc(), link)?.as_str())?;
    }
    Ok(dir)
}

/// What was found, without the second.
fn shape(look: Look) -> Option<u64> {
    match look {
        Look::File { len, .. } => Some(len),
        Look::Directory => Some(1000),
        Look::Absent => Some(2000),
        Look::Failed => None,
    }
}

/// The names in byte order, each followed by `/` if it is a directory and by a line end.
fn printed(alloc: Global, listed: Listed) -> Result<Vec<u8>, AllocError> {
    let mut lines = Vec::new(alloc);
    let Listed::Names(names) = listed else {
        return b"!".to_vec(alloc);
    };
    for name in names.as_slice() {
        let mut line = name.text.as_slice().to_vec(alloc)?;
        if name.directory {
            line.push(b'/')?;
        }
        line.push(b'\n')?;
        lines.push(line)?;
    }
    lines.sort()?;
    let mut text = Vec::new(alloc);
    for line in &lines {
        text.extend_from_slice(line)?;
    }
    Ok(text)
}

const FILE: u64 = 5;

const DIRECTORY: u64 = 1000;

const ABSENT: u64 = 2000;

#[test]
#[tactic(auto, using(crate::proofs::TestPaths::root, crate::proofs::TestPaths::file, crate::proofs::TestPaths::nothing, crate::proofs::TestPaths::directory, crate::proofs::TestPaths::percent, crate::proofs::TestPaths::inner, crate::proofs::TestPaths::back, crate::proofs::TestPaths::empty, crate::proofs::TestPaths::outer, crate::proofs::TestPaths::up, crate::proofs::TestPaths::beyond_up, crate::proofs::TestPaths::beyond_root, crate::proofs::TestPaths::dots, crate::proofs::TestPaths::in_circles, crate::proofs::TestPaths::nowhere, crate::proofs::TestPaths::below_a_file))]
fn a_look_stays_inside(rt: HostRuntime) -> Result<(), Fail> {
    let dir = filled(rt, "tow_disk.looks")?;
    let mut folder = DiskFolder::new(rt, dir.join(rt.alloc(), "site")?.as_str())?;
    assert_eq!(rt; shape(folder.look(0, b"/")), Some(DIRECTORY));
    assert_eq!(rt; shape(folder.look(0, b"/a.txt")), Some(FILE));
    assert_eq!(rt; shape(folder.look(0, b"/none")), Some(0));
    assert_eq!(rt; shape(folder.look(0, b"/d")), Some(DIRECTORY));
    assert_eq!(rt; shape(folder.look(0, b"/d/e/%41")), Some(4));
    assert_eq!(rt; shape(folder.look(0, b"/inner")), Some(FILE));
    assert_eq!(rt; shape(folder.look(0, b"/d/back/e")), Some(DIRECTORY));
    assert_eq!(rt; shape(folder.look(0, b"/empty")), Some(ABSENT));
    assert_eq!(rt; shape(folder.look(0, b"/outer")), Some(ABSENT));
    assert_eq!(rt; shape(folder.look(0, b"/up")), Some(ABSENT));
    assert_eq!(rt; shape(folder.look(0, b"/up/outside")), Some(ABSENT));
    assert_eq!(rt; shape(folder.look(0, b"/../outside")), Some(ABSENT));
    assert_eq!(rt; shape(folder.look(0, b"/d/../a.txt")), Some(ABSENT));
    assert_eq!(rt; shape(folder.look(0, b"/loop")), Some(ABSENT));
    assert_eq!(rt; shape(folder.look(0, b"/nowhere")), Some(ABSENT));
    assert_eq!(rt; shape(folder.look(0, b"/a.txt/b")), Some(ABSENT));
    assert_eq!(rt; folder.faults(), 0);
    fs::remove_dir_all(&rt, dir.as_path())?;
    Ok(())
}

#[test]
#[tactic(auto, using(crate::proofs::TestPaths::root, crate::proofs::TestPaths::directory, crate::proofs::TestPaths::file, crate::proofs::TestPaths::up))]
fn names_are_those_of_what_is_found(rt: HostRuntime) -> Result<(), Fail> {
    let alloc = rt.alloc();
    let dir = filled(rt, "tow_disk.names")?;
    let mut folder = DiskFolder::new(rt, dir.join(alloc, "site")?.as_str())?;
    assert_eq!(rt;
        printed(alloc, folder.names(0, b"/"))?.as_slice(),
        b"a.txt\nd/\ninner\nnone\n".as_slice()
    );
    assert_eq!(rt;
        printed(alloc, folder.names(0, b"/d"))?.as_slice(),
        b"b c\nback/\ne/\n".as_slice()
    );
    assert_eq!(rt;
        printed(alloc, folder.names(0, b"/a.txt"))?.as_slice(),
        b"".as_slice()
    );
    assert_eq!(rt;
        printed(alloc, folder.names(0, b"/up"))?.as_slice(),
        b"".as_slice()
    );
    assert_eq!(rt; folder.faults(), 0);
    fs::remove_dir_all(&rt, dir.as_path())?;
    Ok(())
}

#[test]
#[tactic(auto, using(crate::proofs::TestPaths::file, crate::proofs::TestPaths::spaced, crate::proofs::TestPaths::outer))]
fn a_file_is_read_from_each_place(rt: HostRuntime) -> Result<(), Fail> {
    let dir = filled(rt, "tow_disk.reads")?;
    let mut folder = DiskFolder::new(rt, dir.join(rt.alloc(), "site")?.as_str())?;
    let mut buffer = [0; 3];
    assert_eq!(rt; folder.read_at(0, b"/a.txt", 0, &mut buffer), Part::Got(3));
    assert_eq!(rt; buffer, *b"hel");
    assert_eq!(rt; folder.read_at(0, b"/d/b c", 2, &mut buffer), Part::Got(2));
    assert_eq!(rt; buffer, *b" dl");
    assert_eq!(rt; folder.read_at(0, b"/a.txt", 4, &mut buffer), Part::Got(1));
    assert_eq!(rt; buffer, *b"odl");
    assert_eq!(rt; folder.read_at(0, b"/a.txt", 5, &mut buffer), Part::Failed);
    assert_eq!(rt; folder.read_at(0, b"/outer", 0, &mut buffer), Part::Failed);
    assert_eq!(rt; folder.faults(), 2);
    fs::remove_dir_all(&rt, dir.as_path())?;
    Ok(())
}

#[test]
#[tactic(auto, using(crate::proofs::TestPaths::file))]
fn an_open_file_is_read_on_after_it_is_gone(rt: HostRuntime) -> Result<(), Fail> {
    let dir = filled(rt, "tow_disk.open")?;
    let mut folder = DiskFolder::new(rt, dir.join(rt.alloc(), "site")?.as_str())?;
    let mut buffer = [0; 3];
    assert_eq!(rt; shape(folder.look(0, b"/a.txt")), Some(FILE));
    fs::remove_file(&rt, dir.join(rt.alloc(), "site/a.txt")?.as_path())?;
    assert_eq!(rt; folder.read_at(0, b"/a.txt", 0, &mut buffer), Part::Got(3));
    assert_eq!(rt; folder.read_at(0, b"/a.txt", 3, &mut buffer), Part::Got(2));
    assert_eq!(rt; shape(folder.look(0, b"/a.txt")), Some(ABSENT));
    assert_eq!(rt; folder.read_at(0, b"/a.txt", 0, &mut buffer), Part::Failed);
    assert_eq!(rt; folder.faults(), 1);
    fs::remove_dir_all(&rt, dir.as_path())?;
    Ok(())
}

/// What kind of error the system had if there is no such folder.
fn missing_for(made: Result<DiskFolder, NoFolder>) -> Option<ErrorKind> {
    match made {
        Err(NoFolder::Missing(error)) => Some(error.kind()),
        _ => None,
    }
}

#[test]
fn a_folder_is_a_directory(rt: HostRuntime) -> Result<(), Fail> {
    let dir = filled(rt, "tow_disk.roots")?;
    let site = dir.join(rt.alloc(), "site")?;
    assert!(rt; DiskFolder::new(rt, site.as_str()).is_ok());
    for (part, kind) in [
        ("missing", ErrorKind::NotFound),
        ("a.txt", ErrorKind::NotADirectory),
        ("loop", ErrorKind::FilesystemLoop),
        ("nowhere", ErrorKind::NotFound),
    ] {
        let made = DiskFolder::new(rt, site.join(rt.alloc(), part)?.as_str());
        assert_eq!(rt; missing_for(made), Some(kind));
    }
    fs::remove_dir_all(&rt, dir.as_path())?;
    Ok(())
}
