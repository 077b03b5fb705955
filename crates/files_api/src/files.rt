// The traits of the files of one folder, and of a stop of the machine.
ghost use Rattle.std.specs.Prelude.{◌≡◌, Option, length, map, string_bytes, IfOk, IfSome, IsTrue};
ghost use Rattle.std.specs.Io.{ReadsAtMost, WritesAtMost};
ghost use Rattle.store_api.specs.Told.{Told};
ghost use Rattle.files_api.specs.Folder.{Folder, Stage, made, kept, held, Label, IsAllOnDisk};
ghost use Rattle.files_api.specs.Calls.{Reaches, Looks, Found, label_at, Creates, IsUsable, ReadsSome, WritesSome, Cuts, Syncs, SyncsNames, Lists, Renames, Removes};

/// The system refused the call.
#[derive(Clone, Copy)]
pub struct Failed;

/// Why the folder wasn't listed.
#[derive(Clone, Copy)]
pub enum ListRefused {
    /// The system refused the call, at its beginning or in its midst.
    Failed,
    /// A name in the folder isn't UTF-8.
    NotText,
    /// There was no memory for the names.
    Memory,
}

/// The files of one folder, by their names. Each call asks one thing of the system.
///
/// Nothing is known of the files before the folder is locked, nor of any file once a sync of the names failed, nor of a file once a
/// sync of it failed, nor through a handle that was opened under a name before a renaming or a removal of that name.
///
/// A file has one name. The name of the lock is no file's, and nothing is asked of it.
pub trait Files {
    /// An open file.
    type Handle: Drop;

    /// What the files tell of their folder, where they tell anything.
    ghost told: { Self → Option Folder };

    /// What an open file is known by.
    ghost label_of: { Self.Handle → Label };

    /// Makes the folder where it is missing.
    fn make(&mut self) -> Result<(), Failed>
        ensures told { Told (told self.old) (told self.new) (Reaches Stage.away made result) };

    /// Makes the folder's own name durable.
    fn sync_parent(&mut self) -> Result<(), Failed>
        ensures told { Told (told self.old) (told self.new) (Reaches made kept result) };

    /// Takes the folder's lock, which no two runs have at a time and which goes with the run, or fails at once where another run has
    /// it.
    fn lock(&mut self) -> Result<(), Failed>
        ensures told { Told (told self.old) (told self.new) (Reaches kept held result) };

    /// Opens the file of this name, and answers none where there is no such file.
    fn open(&mut self, name: &str) -> Result<Option<Self::Handle>, Failed>
        ensures told { Told (told self.old) (told self.new) Looks }
        ensures found { IfOk result (λ handle. IfSome (told self.old) (Found label_of name.now handle)) };

    /// Makes and opens a file of this name, of which there is none yet. A call that failed may have made it.
    fn create(&mut self, name: &str) -> Result<Self::Handle, Failed>
        ensures told { Told (told self.old) (told self.new) (Creates name.now result) }
        ensures named { IfOk result (λ handle. IfSome (told self.old) (λ d. label_of handle ≡ label_at d name.now)) };

    /// The file's length in bytes.
    fn len(&mut self, handle: &Self::Handle) -> Result<u64, Failed>
        ensures told { Told (told self.old) (told self.new) Looks }
        ensures length { IfOk result (λ len. IfSome (told self.old) (λ d. IsUsable d (label_of handle.now) → len ≡ length (d.files (label_of handle.now).name).standing.bytes)) };

    /// Reads what stands from the offset on, at most the buffer's length, and answers how many bytes that are. None for a buffer that
    /// has room means that nothing stands there.
    fn read_at(
        &mut self,
        handle: &Self::Handle,
        offset: u64,
        into: &mut [u8],
    ) -> Result<usize, Failed>
        ensures told { Told (told self.old) (told self.new) Looks }
        ensures bound { ReadsAtMost result into.new }
        ensures bytes { IfOk result (λ count. IfSome (told self.old) (ReadsSome (label_of handle.now) offset into.new count)) };

    /// Writes bytes from the front of the piece from the offset on, and answers how many. Beyond the end it lengthens the file, and the
    /// bytes between are 0. A call that failed may have changed a part of its range to any bytes.
    fn write_at(
        &mut self,
        handle: &Self::Handle,
        offset: u64,
        bytes: &[u8],
    ) -> Result<usize, Failed>
        ensures told { Told (told self.old) (told self.new) (WritesSome (label_of handle.now) offset bytes.now result) }
        ensures bound { WritesAtMost result bytes.now };

    /// Cuts the file to a length that it has at least. A call that failed may have cut off a part of what was to go.
    fn cut(&mut self, handle: &Self::Handle, len: u64) -> Result<(), Failed>
        ensures told { Told (told self.old) (told self.new) (Cuts (label_of handle.now) len result) };

    /// Makes what the file reads as durable. Where it fails nothing more is known of the file.
    fn sync(&mut self, handle: &Self::Handle) -> Result<(), Failed>
        ensures told { Told (told self.old) (told self.new) (Syncs (label_of handle.now) result) };

    /// Makes the names of all files durable, so that no stop undoes a renaming or a removal. Where it fails nothing more is known of
    /// any file.
    fn sync_names(&mut self) -> Result<(), Failed>
        ensures told { Told (told self.old) (told self.new) (SyncsNames result) };

    /// The names of all files, each once, in no order of their own.
    fn list(&mut self) -> Result<Vec<String>, ListRefused>
        ensures told { Told (told self.old) (told self.new) Looks }
        ensures names { IfOk result (λ names. IfSome (told self.old) (λ d. d.stage ≡ held → Lists (map string_bytes names.items) d.files)) };

    /// Renames a file, in place of the one that has the new name, where there is one. Until the next sync of the names a stop may
    /// undo that, wholly or not at all: then each of the two names has what it had before. A call that failed may have done it.
    fn rename(&mut self, from: &str, to: &str) -> Result<(), Failed>
        ensures told { Told (told self.old) (told self.new) (Renames from.now to.now result) };

    /// Removes the file of this name, and answers whether there was one. Until the next sync of the names a stop may undo that. A call
    /// that failed may have done it.
    fn remove(&mut self, name: &str) -> Result<bool, Failed>
        ensures told { Told (told self.old) (told self.new) (Removes name.now result) };

    /// Where the files say that all is on the disk, it is.
    ghost settled: { (files : Self) → IfSome (told files) (λ d. IsTrue d.is_settled → IsAllOnDisk d) };
}

/// Files whose machine can stop at any moment, for tests.
pub trait Stop: Files {
    ghost use Rattle.store_api.specs.Told.{Told};
    ghost use Rattle.files_api.specs.Folder.{StopsAs};

    /// The files after a stop now and a start: some of the renamings and removals since the last sync of the names are undone, each file
    /// is what the stop may leave of it, and all of that is on the disk. The bits of `choice` say which.
    fn stop(self, choice: u64) -> Self
        ensures told { Told (Self.told self) (Self.told result) StopsAs };
}
