//! The adapters over bytes that stand in memory, and the host over files of the current folder, which it removes.

use super::*;
use std::alloc::{AllocError, Global};
use std::fs;
use std::rt::HostRuntime;
use std::test::Fail;
use tow_folder::{Folder, Look};
use tow_host::{Host, Kept, LogSink, Put};
use tow_link::{Whole, read_whole, write_all};

/// The bytes of a source over these, read to the end.
fn read_back(alloc: Global, bytes: &[u8]) -> Whole {
    let mut source = Reading::new(bytes);
    read_whole(alloc, &mut source, 9)
}

/// What a sink over a list has after these bytes.
fn written(alloc: Global, bytes: &[u8]) -> Result<Vec<u8>, AllocError> {
    let mut sink = Writing::new(Vec::new(alloc));
    let _failed = write_all(&mut sink, bytes);
    sink.inner().clone()
}

#[test]
fn bytes_pass_unchanged(rt: HostRuntime) -> Result<(), Fail> {
    let alloc = rt.alloc();
    assert_eq!(rt;
        read_back(alloc, b"one\ntwo"),
        Whole::Bytes(b"one\ntwo".to_vec(alloc)?)
    );
    assert_eq!(rt;
        written(alloc, b"one\0two")?.as_slice(),
        b"one\0two".as_slice()
    );
    Ok(())
}

/// The number of a log that nobody else writes.
const LOG: u32 = 4_000_000_000;

const LOG_NAME: &str = "access-4000000000.log";

/// The number of a log in the text, which names no file.
const TEXT_LOG: u32 = 3_999_999_999;

const TEXT_LOG_NAME: &str = "access-3999999999.log";

/// Puts lines into a log of the machine that was just handed out.
fn log_lines(rt: HostRuntime, lines: &[&[u8]]) -> bool {
    let mut host = SystemHost::new(rt);
    let Ok(mut log) = host.log(LOG) else {
        return false;
    };
    let mut stored = true;
    for line in lines {
        stored = stored && log.put(0, 1, TEXT_LOG, line) == Put::Stored;
    }
    stored
}

#[test]
fn a_log_file_gains_its_lines(rt: HostRuntime) -> Result<(), Fail> {
    let _ = fs::remove_file(&rt, LOG_NAME);
    assert!(rt; log_lines(rt, &[]));
    assert!(rt; fs::read(&rt, LOG_NAME).is_err());
    assert!(rt; log_lines(rt, &[b"a 204", b""]));
    assert!(rt; log_lines(rt, &[b"b 404"]));
    assert!(rt; fs::read(&rt, TEXT_LOG_NAME).is_err());
    let lines = fs::read(&rt, LOG_NAME).map_err(|_| "read")?;
    fs::remove_file(&rt, LOG_NAME).map_err(|_| "remove")?;
    assert_eq!(rt; lines.as_slice(), b"a 204\n\nb 404\n".as_slice());
    Ok(())
}

const TEXT_NAME: &str = "a-text-of-a-test.txt";

/// Reads a text of the machine, hands it back, and says what was read of it then.
fn text_back(rt: HostRuntime, host: &mut SystemHost) -> bool {
    let Ok(mut text) = host.text(TEXT_NAME) else {
        return false;
    };
    let whole = read_whole(rt.alloc(), &mut text, 9);
    host.take_back(Kept {
        text: Some(text),
        streams: None,
        folders: Vec::new(rt.alloc()),
        logs: Vec::new(rt.alloc()),
        account: None,
    });
    matches!(whole, Whole::Bytes(_))
}

#[test]
fn a_text_that_was_read_is_kept(rt: HostRuntime) -> Result<(), Fail> {
    let mut host = SystemHost::new(rt);
    assert!(rt; host.text_read().is_none());
    fs::write(&rt, TEXT_NAME, b"done").map_err(|_| "write")?;
    let was_read = text_back(rt, &mut host);
    fs::remove_file(&rt, TEXT_NAME).map_err(|_| "remove")?;
    assert!(rt; was_read);
    assert_eq!(rt; host.text_read().ok_or("kept")?, b"done".as_slice());
    Ok(())
}

#[test]
fn a_failure_has_a_name_and_a_reason(rt: HostRuntime) -> Result<(), Fail> {
    let mut host = SystemHost::new(rt);
    assert!(rt; host.text("no-such-text.txt").is_err());
    let told = format!(in rt.alloc(); "{}", host.text_failure())?;
    assert_eq!(rt;
        told.as_str(),
        "cannot read the handlers text 'no-such-text.txt': No such file or directory (os error 2)"
    );
    let told = format!(in rt.alloc(); "{}", host.stream_failure())?;
    assert_eq!(rt; told.as_str(), "cannot write to the standard output");
    Ok(())
}

const FOLDER_NAME: &str = "a-folder-of-a-test";

const FILE_NAME: &str = "a-folder-of-a-test/f";

/// The length of the file in a folder of the machine, which is handed back.
#[tactic(auto, using(crate::proofs::TestPaths::file))]
fn length_in(rt: HostRuntime, host: &mut SystemHost) -> Result<Option<u64>, AllocError> {
    let Ok(mut folder) = host.folder(FOLDER_NAME) else {
        return Ok(None);
    };
    let look = folder.look(0, b"/f");
    let mut folders = Vec::new(rt.alloc());
    folders.push(folder)?;
    host.take_back(Kept {
        text: None,
        streams: None,
        folders,
        logs: Vec::new(rt.alloc()),
        account: None,
    });
    match look {
        Look::File { len, .. } => Ok(Some(len)),
        _ => Ok(None),
    }
}

#[test]
fn a_folder_is_had_by_its_name(rt: HostRuntime) -> Result<(), Fail> {
    let mut host = SystemHost::new(rt);
    let _old = fs::remove_dir_all(&rt, FOLDER_NAME);
    assert_eq!(rt; length_in(rt, &mut host)?, None);
    let told = format!(in rt.alloc(); "{}", host.folder_failure())?;
    assert_eq!(rt;
        told.as_str(),
        "cannot read the folder 'a-folder-of-a-test': No such file or directory (os error 2)"
    );
    fs::create_dir(&rt, FOLDER_NAME).map_err(|_| "make")?;
    fs::write(&rt, FILE_NAME, b"done").map_err(|_| "write")?;
    let length = length_in(rt, &mut host)?;
    fs::remove_dir_all(&rt, FOLDER_NAME).map_err(|_| "remove")?;
    assert_eq!(rt; length, Some(4));
    Ok(())
}
