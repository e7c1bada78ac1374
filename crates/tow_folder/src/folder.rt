//! Folders, which have files under their paths.

ghost use Rattle.std.specs.Prelude.{◌≡◌, ◌<◌, ◌≤◌, ℕ, length, true, IfSome};
ghost use Rattle.tow_faults.specs.Faults.{KeepsOtherFaults, faults_for};
ghost use Rattle.tow_link.specs.Data.{Rose};
ghost use Rattle.tow_semantics.specs.Files.{is_map};
ghost use Rattle.tow_folder.specs.Folders.{FolderData, HasAt, ListsNames, PartFits, ReadsPart, Looks, is_askable};

use crate::{Listed, Look, Part};

/// A folder of files. A path that it is asked for begins with `/`, is UTF-8, has no NUL byte and no
/// empty segment behind that `/`, and is `/` for the folder itself. `k` is the number, from 0, of
/// the connection that asks. The folder fails only if it counts that for this connection. No call
/// changes its files.
pub trait Folder {
    /// How often it has failed, by the connection, and, where it tells, its files.
    ghost shows: { Self → FolderData };

    /// The files that a folder tells are the map of a folder.
    ghost is_mapped: { (folder : Self) → IfSome (shows folder).told (λ files. is_map files ≡ true) };

    /// Looks what stands at the path. Takes no memory of the caller's.
    fn look(&mut self, k: u32, path: &[u8]) -> Look
        requires { is_askable path.now ≡ true }
        ensures told { (shows self.new).told ≡ (shows self.old).told }
        ensures found { IfSome (shows self.old).told (λ files. Looks files path.now result) }
        ensures failed { result ≡ Look.Failed → Rose (faults_for (shows self.old).faults k)
            (faults_for (shows self.new).faults k) }
        ensures later { faults_for (shows self.old).faults k ≤ faults_for (shows self.new).faults k }
        ensures others { KeepsOtherFaults (shows self.old).faults (shows self.new).faults k };

    /// Reads some bytes of the file from `at` on, in bytes from its front, into the buffer, which
    /// is not empty. A folder that tells has more than `at` bytes under this path. Takes no memory
    /// of the caller's.
    fn read_at(&mut self, k: u32, path: &[u8], at: u64, to: &mut [u8]) -> Part
        requires path { is_askable path.now ≡ true }
        requires there { IfSome (shows self.old).told (λ files. HasAt files path.now at) }
        requires room { 0 < length to.old }
        ensures told { (shows self.new).told ≡ (shows self.old).told }
        ensures fits { PartFits result (length to.new) }
        ensures read { IfSome (shows self.old).told (λ files. ReadsPart files path.now at result to.new) }
        ensures failed { result ≡ Part.Failed → Rose (faults_for (shows self.old).faults k)
            (faults_for (shows self.new).faults k) }
        ensures later { faults_for (shows self.old).faults k ≤ faults_for (shows self.new).faults k }
        ensures others { KeepsOtherFaults (shows self.old).faults (shows self.new).faults k };

    /// The names in the directory at the path; none if there is no directory. Takes memory.
    fn names(&mut self, k: u32, path: &[u8]) -> Listed
        requires { is_askable path.now ≡ true }
        ensures told { (shows self.new).told ≡ (shows self.old).told }
        ensures names { IfSome (shows self.old).told (λ files. ListsNames files path.now result) }
        ensures failed { result ≡ Listed.Failed → Rose (faults_for (shows self.old).faults k)
            (faults_for (shows self.new).faults k) }
        ensures later { faults_for (shows self.old).faults k ≤ faults_for (shows self.new).faults k }
        ensures others { KeepsOtherFaults (shows self.old).faults (shows self.new).faults k };
}
