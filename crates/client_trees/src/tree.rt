// The trait of a client's files.
ghost use Rattle.std.specs.Prelude.{◌≡◌, ℕ, Option, map, IfOk, IfSome, OnOk};
ghost use Rattle.std.specs.Io.{ReadsAtMost};
ghost use Rattle.tree_api.specs.Cause.{HasCause};
ghost use Rattle.client_trees.specs.Files.{Files, row_of, AreInOrder, created, finished, removed, Leaves, LeavesFront, IsGone, IsThere, Gives};
ghost use Rattle.client_trees.specs.Listing.{HasListCause};

use kinds::Path;
use std::alloc::Global;
use tree_api::Failed;

/// A file as a listing has it.
#[derive(Drop)]
pub struct FileRow {
    pub path: Path,
    /// How many bytes the file has.
    pub size: u64,
    /// When it was changed last, in the unit of its tree.
    pub mtime: u64,
}

/// Why a listing was refused.
#[derive(Clone, Copy)]
pub enum ListRefused {
    /// A part of the tree couldn't be listed: the count of faults rose.
    Failed,
    /// Want of memory.
    Memory,
}

/// The files of a client, each under its path.
pub trait Tree {
    /// The files in ascending order of their paths, where the tree tells them.
    ghost files: { Self → Option Files };

    /// How often a call on the tree has failed.
    ghost fault_count: { Self → ℕ };

    /// The count of faults. It never falls, and stays at its type's last value.
    fn faults(&self) -> u64
        ensures { result ≡ fault_count self.now };

    /// All files, each once, in ascending order of their paths' bytes.
    fn list(&mut self, alloc: Global) -> Result<Vec<FileRow>, ListRefused>
        ensures order { IfOk result (λ rows. AreInOrder rows.items) }
        ensures whole { IfOk result (λ rows. IfSome (files self.old) (λ told. rows.items ≡ map row_of told)) }
        ensures kept { files self.new ≡ files self.old }
        ensures cause { HasListCause (fault_count self.old) (fault_count self.new) result };

    /// Gives the file's bytes from the offset on, as many as the answer says, at the front of the buffer. None for a buffer
    /// that has room means that the file ends there. Reading a file that isn't there fails.
    fn read(&mut self, path: &Path, offset: u64, into: &mut [u8]) -> Result<usize, Failed>
        ensures bound { ReadsAtMost result into.new }
        ensures bytes { IfOk result (λ count. IfSome (files self.old) (Gives path.now offset into.new count)) }
        ensures kept { files self.new ≡ files self.old }
        ensures cause { HasCause (fault_count self.old) (fault_count self.new) result };

    /// Leaves an empty file at the path, whatever stood there.
    fn create(&mut self, path: &Path) -> Result<(), Failed>
        ensures files { Leaves result (files self.old) (files self.new) (created path.now) }
        ensures cause { HasCause (fault_count self.old) (fault_count self.new) result };

    /// Puts bytes behind the last of the file. It fails where the file isn't there; a call that failed may have put a front
    /// of the bytes.
    fn append(&mut self, path: &Path, bytes: &[u8]) -> Result<(), Failed>
        ensures files { LeavesFront result (files self.old) (files self.new) path.now bytes.now }
        ensures there { OnOk result (IfSome (files self.old) (IsThere path.now)) }
        ensures cause { HasCause (fault_count self.old) (fault_count self.new) result };

    /// Ends the writing of a file, and sets the time of its last change, in the unit of the tree.
    fn finish(&mut self, path: &Path, mtime: u64) -> Result<(), Failed>
        ensures files { Leaves result (files self.old) (files self.new) (finished path.now mtime) }
        ensures cause { HasCause (fault_count self.old) (fault_count self.new) result };

    /// Takes the file away, where it is there: none stands at the path then.
    fn remove(&mut self, path: &Path) -> Result<(), Failed>
        ensures files { Leaves result (files self.old) (files self.new) (removed path.now) }
        ensures gone { OnOk result (IsGone path.now (files self.new)) }
        ensures cause { HasCause (fault_count self.old) (fault_count self.new) result };
}
