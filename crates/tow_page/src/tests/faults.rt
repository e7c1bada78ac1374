//! Folders that fail.

use super::folders::{FileRow, failing_folder, files, page_of};
use std::alloc::Global;
use std::process::Abort;
use std::test::Fail;

const FILES: &[FileRow] = &[(b"/a", 1, b"a"), (b"/d/x", 2, b"x")];

/// A path, the looks and the calls for names that fail, the page, and whether the folder failed.
type Row = (
    &'static [u8],
    &'static [u64],
    &'static [u64],
    &'static [u8],
    bool,
);

const ROWS: &[Row] = &[
    (b"/a", &[0], &[], b"fault", true),
    (b"/a", &[1, 2, 3], &[0], b"/a 1 1", false),
    (b"/d", &[0], &[], b"fault", true),
    (b"/d/", &[0], &[], b"fault", true),
    (b"/d/", &[1], &[], b"fault", true),
    (b"/d/", &[4], &[], b"fault", true),
    (b"/d/", &[], &[0], b"fault", true),
    (b"//", &[0], &[0], b"nothing", false),
    (b"/none", &[1], &[0], b"nothing", false),
    (b"/none/", &[1], &[0], b"nothing", false),
];

fn expect_faults(rt: &impl Abort, alloc: Global, rows: &[Row]) -> Result<(), Fail> {
    for (path, looks, names, page, failed) in rows {
        let mut folder = failing_folder(rt, alloc, files(alloc, FILES)?, looks, names)?;
        let found = page_of(alloc, &mut folder, path, None, true)?;
        assert_eq!(rt; found.as_slice(), *page);
        let expected: &[u32] = if *failed { &[3] } else { &[] };
        assert_eq!(rt; folder.failed(), expected);
    }
    Ok(())
}

#[test]
fn a_fault_of_the_folder_is_a_fault(rt: HostRuntime) -> Result<(), Fail> {
    expect_faults(&rt, rt.alloc(), ROWS)
}
