//! A part of a file, read whole.

ghost use Rattle.std.specs.Prelude.{◌≡◌, ◌+◌, ◌^◌, ◌<◌, ◌≤◌, true, false, length, IfSome};
ghost use Rattle.std.specs.Option.{ForSome};
ghost use Rattle.tow_faults.specs.Faults.{KeepsOtherFaults, faults_for};
ghost use Rattle.tow_folder.specs.Folders.{is_askable};
ghost use Rattle.tow_link.specs.Data.{Rose};
ghost use Rattle.tow_semantics.specs.Sites.{file_bytes};
ghost use Rattle.tow_wire.specs.Answers.{part_of};

use tow_folder::{Folder, Part};

/// Reads the bytes of a file from `from` on, counted in bytes, until the slice is full. `false` comes only if the folder
/// failed, and counted it for connection `k`; then the slice holds any bytes. Takes no memory of the caller's.
pub(crate) fn read_part<F: Folder>(
    folder: &mut F,
    k: u32,
    path: &[u8],
    from: u64,
    to: &mut [u8],
) -> bool
    requires path { is_askable path.now ≡ true }
    requires small { from + length to.old < 2 ^ 64 }
    requires there { ForSome (F.shows folder.old).told (λ files.
        from + length to.old ≤ length (file_bytes files path.now)) }
    ensures told { (F.shows folder.new).told ≡ (F.shows folder.old).told }
    ensures len { length to.new ≡ length to.old }
    ensures read { result ≡ true → IfSome (F.shows folder.old).told (λ files.
        to.new ≡ part_of from (length to.old) (file_bytes files path.now)) }
    ensures failed { result ≡ false → Rose (faults_for (F.shows folder.old).faults k)
        (faults_for (F.shows folder.new).faults k) }
    ensures later { faults_for (F.shows folder.old).faults k
        ≤ faults_for (F.shows folder.new).faults k }
    ensures others { KeepsOtherFaults (F.shows folder.old).faults (F.shows folder.new).faults k }
{
    let mut got: usize = 0;
    while got < to.len() {
        match folder.read_at(k, path, from + got as u64, &mut to[got..]) {
            Part::Got(count) => got += count,
            Part::Failed => return false,
        }
    }
    true
}

/// Reads so many bytes of a file from `from` on into the vector, which has as many at least and is cut to them. `false`
/// comes only if the folder failed, and counted it for connection `k`; then the vector holds any bytes. Takes no memory of
/// the caller's.
pub(crate) fn read_piece<F: Folder>(
    folder: &mut F,
    k: u32,
    path: &[u8],
    from: u64,
    piece: &mut Vec<u8>,
    count: usize,
) -> bool
    requires path { is_askable path.now ≡ true }
    requires small { from + count < 2 ^ 64 }
    requires fits { count ≤ length piece.old.items }
    requires there { ForSome (F.shows folder.old).told (λ files.
        from + count ≤ length (file_bytes files path.now)) }
    ensures told { (F.shows folder.new).told ≡ (F.shows folder.old).told }
    ensures len { length piece.new.items ≡ count }
    ensures read { result ≡ true → IfSome (F.shows folder.old).told (λ files.
        piece.new.items ≡ part_of from count (file_bytes files path.now)) }
    ensures failed { result ≡ false → Rose (faults_for (F.shows folder.old).faults k)
        (faults_for (F.shows folder.new).faults k) }
    ensures later { faults_for (F.shows folder.old).faults k
        ≤ faults_for (F.shows folder.new).faults k }
    ensures others { KeepsOtherFaults (F.shows folder.old).faults (F.shows folder.new).faults k }
{
    piece.truncate(count);
    read_part(folder, k, path, from, piece)
}
