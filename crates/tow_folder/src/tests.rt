//! What a folder in memory answers, by tables of paths.

ghost use Rattle.std.specs.Prelude.{◌≡◌, ◌<◌, ◌≤◌, true};
ghost use Rattle.tow_folder.specs.Folders.{is_askable};

use super::*;
use std::alloc::{AllocError, Global};
use std::process::Abort;
use std::test::Fail;
use tow_model::Bytes;

/// A path with its second and its bytes.
type Row = (&'static [u8], u64, &'static [u8]);

const FILES: [Row; 12] = [
    (b"/a.txt", 1, b"hello"),
    (b"/b", 2, b""),
    (b"/d/e.txt", 3, b"in d"),
    (b"/d/f/g.txt", 4, b"deep"),
    (b"/d/f/h/i/j", 5, b"deeper"),
    (b"/d-e", 6, b"beside"),
    (b"/with space/a file", 7, b"spaced"),
    (b"/\"quoted'", 8, b"quotes"),
    (b"/100%41", 9, b"percent"),
    (b"/gr\xc3\xbc\xc3\x9fe/\xe2\x82\xac", 10, b"utf-8"),
    (b"/<b>", 11, b"angles"),
    (b"/..", 12, b"dots"),
];

/// What is found at each path of the map above.
const LOOKS: [(&'static [u8], Look); 40] = [
    (b"/", Look::Directory),
    (b"/a.txt", Look::File { len: 5, second: 1 }),
    (b"/b", Look::File { len: 0, second: 2 }),
    (b"/d/e.txt", Look::File { len: 4, second: 3 }),
    (b"/d/f/g.txt", Look::File { len: 4, second: 4 }),
    (b"/d/f/h/i/j", Look::File { len: 6, second: 5 }),
    (b"/d-e", Look::File { len: 6, second: 6 }),
    (b"/with space/a file", Look::File { len: 6, second: 7 }),
    (b"/\"quoted'", Look::File { len: 6, second: 8 }),
    (b"/100%41", Look::File { len: 7, second: 9 }),
    (
        b"/gr\xc3\xbc\xc3\x9fe/\xe2\x82\xac",
        Look::File { len: 5, second: 10 },
    ),
    (b"/<b>", Look::File { len: 6, second: 11 }),
    (b"/..", Look::File { len: 4, second: 12 }),
    (b"/d", Look::Directory),
    (b"/d/f", Look::Directory),
    (b"/d/f/h", Look::Directory),
    (b"/d/f/h/i", Look::Directory),
    (b"/with space", Look::Directory),
    (b"/gr\xc3\xbc\xc3\x9fe", Look::Directory),
    (b"/a.txt/x", Look::Absent),
    (b"/a.txt/x/y", Look::Absent),
    (b"/b/c", Look::Absent),
    (b"/d/e.txt/..", Look::Absent),
    (b"/a", Look::Absent),
    (b"/a.tx", Look::Absent),
    (b"/a.txtt", Look::Absent),
    (b"/A.TXT", Look::Absent),
    (b"/d-", Look::Absent),
    (b"/d/e", Look::Absent),
    (b"/d/f/g", Look::Absent),
    (b"/d/..", Look::Absent),
    (b"/d/f/h/i/j/k", Look::Absent),
    (b"/with", Look::Absent),
    (b"/with%20space", Look::Absent),
    (b"/100A", Look::Absent),
    (b"/gr", Look::Absent),
    (b"/gr\xc3\xbc", Look::Absent),
    (b"/\"quoted", Look::Absent),
    (b"/&lt;b&gt;", Look::Absent),
    (b"/.", Look::Absent),
];

/// The names in each directory of the map above, one after the other in byte order, each followed
/// by `/` if it is a directory and by a line end.
const LISTINGS: [(&'static [u8], &'static [u8]); 10] = [
    (
        b"/",
        b"\"quoted'\n..\n100%41\n<b>\na.txt\nb\nd/\nd-e\ngr\xc3\xbc\xc3\x9fe/\nwith space/\n",
    ),
    (b"/d", b"e.txt\nf/\n"),
    (b"/d/f", b"g.txt\nh/\n"),
    (b"/d/f/h", b"i/\n"),
    (b"/d/f/h/i", b"j\n"),
    (b"/with space", b"a file\n"),
    (b"/gr\xc3\xbc\xc3\x9fe", b"\xe2\x82\xac\n"),
    (b"/a.txt", b""),
    (b"/a.txt/x", b""),
    (b"/none", b""),
];

/// Paths that are together no map.
const NO_MAPS: [&'static [&'static [u8]]; 12] = [
    &[b""],
    &[b"/"],
    &[b"a"],
    &[b"//"],
    &[b"/a/"],
    &[b"/a//b"],
    &[b"//a"],
    &[b"/a", b"/a"],
    &[b"/a", b"/a/b"],
    &[b"/a/b", b"/a"],
    &[b"/b", b"/a/b/c", b"/a"],
    &[b"/a", b"b"],
];

/// The files of these rows.
fn files_of(alloc: Global, rows: &[Row]) -> Result<Vec<MemoryFile>, AllocError> {
    let mut files = Vec::new(alloc);
    'rows: for (path, second, bytes) in rows {
        files.push(MemoryFile {
            path: Bytes::from_slice(alloc, path)?,
            second: *second,
            bytes: Bytes::from_slice(alloc, bytes)?,
        })?;
    }
    Ok(files)
}

/// The calls of these numbers fail: of `look`, of `read_at` and of `names`.
fn failing(alloc: Global, numbers: [&[u64]; 3]) -> Result<FailingCalls, AllocError> {
    Ok(FailingCalls {
        look: numbers[0].to_vec(alloc)?,
        read_at: numbers[1].to_vec(alloc)?,
        names: numbers[2].to_vec(alloc)?,
    })
}

/// What stands at each path, one after the other; nothing if the files are no map.
fn looks(alloc: Global, files: &[Row], rows: &[(&[u8], Look)]) -> Result<Vec<Look>, AllocError> {
    let files = files_of(alloc, files)?;
    let mut found = Vec::new(alloc);
    if mapping::is_map(&files) {
        'rows: for (path, _wanted) in rows {
            found.push(looking::look_in(&files, path))?;
        }
    }
    Ok(found)
}

/// What should stand there.
fn wanted(alloc: Global, rows: &[(&[u8], Look)]) -> Result<Vec<Look>, AllocError> {
    let mut wanted = Vec::new(alloc);
    'rows: for (_path, look) in rows {
        wanted.push(*look)?;
    }
    Ok(wanted)
}

/// The names, each followed by `/` if it is a directory and by a line end.
fn printed(alloc: Global, names: &[Name]) -> Result<Vec<u8>, AllocError> {
    let mut text = Vec::new(alloc);
    'names: for name in names {
        text.extend_from_slice(name.text.as_slice())?;
        if name.directory {
            text.push(b'/')?;
        }
        text.push(b'\n')?;
    }
    Ok(text)
}

/// The names in the directory of each row are those of the row.
fn expect_names(
    rt: &impl Abort,
    alloc: Global,
    files: &[Row],
    rows: &[(&[u8], &[u8])],
) -> Result<(), Fail> {
    let files = files_of(alloc, files)?;
    'rows: for (path, wanted) in rows {
        let names = naming::names_in(alloc, &files, path)?;
        assert_eq!(rt; printed(alloc, names.as_slice())?.as_slice(), *wanted);
    }
    Ok(())
}

/// No row is a map.
fn expect_no_maps(rt: &impl Abort, alloc: Global, rows: &[&[&[u8]]]) -> Result<(), Fail> {
    'rows: for row in rows {
        let mut files = Vec::new(alloc);
        'paths: for path in *row {
            files.push(MemoryFile {
                path: Bytes::from_slice(alloc, path)?,
                second: 0,
                bytes: Bytes::from_slice(alloc, b"")?,
            })?;
        }
        let made = MemoryFolder::new(alloc, files, failing(alloc, [&[], &[], &[]])?);
        assert!(rt; made.is_err());
    }
    Ok(())
}

/// What is read at each place of the file, with a buffer of so many bytes: for each place the bytes
/// and a line end.
fn parts(
    alloc: Global,
    folder: &mut MemoryFolder,
    path: &[u8],
    room: usize,
) -> Result<Vec<u8>, AllocError>
    requires path { is_askable path.now ≡ true }
    requires room { (0 < room) × (room ≤ 8) }
{
    let mut text = Vec::new(alloc);
    let Look::File { len, .. } = folder.look(0, path) else {
        return Ok(text);
    };
    let mut buffer = [0; 8];
    'places: for at in 0..len {
        match folder.read_at(0, path, at, &mut buffer[..room]) {
            Part::Got(count) => text.extend_from_slice(&buffer[..count])?,
            Part::Failed => text.push(b'!')?,
        }
        text.push(b'\n')?;
    }
    Ok(text)
}

/// A folder of the map above in which these calls fail.
fn folder(alloc: Global, numbers: [&[u64]; 3]) -> Result<Option<MemoryFolder>, AllocError> {
    let files = files_of(alloc, &FILES)?;
    Ok(MemoryFolder::new(alloc, files, failing(alloc, numbers)?).ok())
}

#[test]
fn a_path_is_a_file_or_a_directory(rt: HostRuntime) -> Result<(), Fail> {
    let alloc = rt.alloc();
    assert_eq!(rt;
        looks(alloc, &FILES, &LOOKS)?.as_slice(),
        wanted(alloc, &LOOKS)?.as_slice()
    );
    Ok(())
}

#[test]
fn an_empty_folder_has_no_root(rt: HostRuntime) -> Result<(), Fail> {
    let alloc = rt.alloc();
    let rows = [(b"/".as_slice(), Look::Absent), (b"/a", Look::Absent)];
    assert_eq!(rt;
        looks(alloc, &[], &rows)?.as_slice(),
        wanted(alloc, &rows)?.as_slice()
    );
    expect_names(&rt, alloc, &[], &[(b"/".as_slice(), b"".as_slice())])
}

#[test]
fn each_child_is_named_once(rt: HostRuntime) -> Result<(), Fail> {
    expect_names(&rt, rt.alloc(), &FILES, &LISTINGS)
}

#[test]
fn what_is_no_map_is_refused(rt: HostRuntime) -> Result<(), Fail> {
    expect_no_maps(&rt, rt.alloc(), &NO_MAPS)
}

#[test]
#[tactic(auto, using(crate::proofs::TestPaths::full_file))]
fn a_part_fills_the_buffer_or_ends_the_file(rt: HostRuntime) -> Result<(), Fail> {
    let alloc = rt.alloc();
    let mut folder = folder(alloc, [&[], &[2], &[]])?.ok_or("no map")?;
    assert_eq!(rt;
        parts(alloc, &mut folder, b"/a.txt", 1)?.as_slice(),
        b"h\ne\n!\nl\no\n".as_slice()
    );
    assert_eq!(rt;
        parts(alloc, &mut folder, b"/a.txt", 3)?.as_slice(),
        b"hel\nell\nllo\nlo\no\n".as_slice()
    );
    assert_eq!(rt;
        parts(alloc, &mut folder, b"/a.txt", 8)?.as_slice(),
        b"hello\nello\nllo\nlo\no\n".as_slice()
    );
    assert_eq!(rt; folder.failed(), [0].as_slice());
    Ok(())
}

#[test]
#[tactic(auto, using(crate::proofs::TestPaths::empty_file))]
fn each_fault_is_counted_for_its_connection(rt: HostRuntime) -> Result<(), Fail> {
    let alloc = rt.alloc();
    let mut folder = folder(alloc, [&[0, 2], &[], &[1]])?.ok_or("no map")?;
    let found = [
        folder.look(7, b"/b"),
        folder.look(7, b"/b"),
        folder.look(9, b"/b"),
        folder.look(7, b"/b"),
    ];
    let file = Look::File { len: 0, second: 2 };
    assert_eq!(rt; found, [Look::Failed, file, Look::Failed, file]);
    assert_eq!(rt; folder.failed(), [7, 9].as_slice());
    assert!(rt; !matches!(folder.names(4, b"/b"), Listed::Failed));
    assert!(rt; matches!(folder.names(4, b"/b"), Listed::Failed));
    assert_eq!(rt; folder.failed(), [7, 9, 4].as_slice());
    assert_eq!(rt; folder.unnoted(), 0);
    Ok(())
}
