// The traits of a store and of a stop of the machine.
ghost use Rattle.std.specs.Prelude.{◌≡◌, ◌+◌, ◌<◌, ◌≤◌, ◌^◌, ℕ, Option, [], length, IfOk, IfSome, OnOk, OnErr};
ghost use Rattle.store_api.specs.Cause.{Rose, NoneFell};
ghost use Rattle.store_api.specs.Disk.{History, idle, now, reads, standing, Leaves};

/// The call failed: the file's count of faults rose in it.
#[derive(Clone, Copy)]
pub struct Failed;

/// Numbered files of bytes. A file that was never written has length 0. Each call that takes `&mut self` is a device
/// call: it moves the store's moment by one, whether it fails or not.
pub trait Store {
    ghost use Rattle.store_api.specs.Told.{Told, Adds, MayWrite, MayCut, MaySync, ReadsFrom};

    /// What the store tells of its files and calls, where it tells anything.
    ghost told: { Self → Option History };

    /// The number of device calls so far, counted from wherever the store began to count.
    ghost moment_of: { Self → ℕ };

    /// How often a call on the file has failed.
    ghost faults_of: { Self → ℕ → ℕ };

    /// The moment: each device call adds one.
    fn moment(&self) -> u64
        ensures { result ≡ moment_of self.now };

    /// The count of faults of a file. It never falls, and stays at its type's last value.
    fn faults(&self, file: u32) -> u64
        ensures { result ≡ faults_of self.now file };

    /// The file's length in bytes.
    fn len(&mut self, file: u32) -> Result<u64, Failed>
        requires { moment_of self.old < 2 ^ 62 }
        ensures told { Told (told self.old) (told self.new) (Adds (λ call. call ≡ idle)) }
        ensures time { moment_of self.new ≡ moment_of self.old + 1 }
        ensures counts { NoneFell (faults_of self.old) (faults_of self.new) }
        ensures cause { OnErr result (Rose (faults_of self.old file) (faults_of self.new file)) }
        ensures length { IfOk result (λ len. IfSome (told self.old) (λ h. len ≡ length (reads h file))) };

    /// Reads what stands from the offset on, at most the buffer's length, and answers how many bytes that are.
    fn read_at(&mut self, file: u32, offset: u64, into: &mut [u8]) -> Result<usize, Failed>
        requires { moment_of self.old < 2 ^ 62 }
        ensures told { Told (told self.old) (told self.new) (Adds (λ call. call ≡ idle)) }
        ensures time { moment_of self.new ≡ moment_of self.old + 1 }
        ensures counts { NoneFell (faults_of self.old) (faults_of self.new) }
        ensures cause { OnErr result (Rose (faults_of self.old file) (faults_of self.new file)) }
        ensures bound { IfOk result (λ count. count ≤ length into.new) }
        ensures bytes { IfOk result (λ count. IfSome (told self.old) (λ h. ReadsFrom (reads h file) offset into.new count)) };

    /// Writes the bytes from the offset on. Beyond the end it lengthens the file, and the bytes between are 0. A write
    /// that would end above 2^64 - 1 fails. Until the file is synced a stop may leave any bytes in the range.
    fn write_at(&mut self, file: u32, offset: u64, bytes: &[u8]) -> Result<(), Failed>
        requires { moment_of self.old < 2 ^ 62 }
        ensures told { Told (told self.old) (told self.new) (Adds (MayWrite file offset bytes.now result)) }
        ensures time { moment_of self.new ≡ moment_of self.old + 1 }
        ensures counts { NoneFell (faults_of self.old) (faults_of self.new) }
        ensures cause { OnErr result (Rose (faults_of self.old file) (faults_of self.new file)) }
        ensures fits { OnOk result (offset + length bytes.now < 2 ^ 64) };

    /// Cuts the file to a length. At its length or beyond nothing changes.
    fn cut(&mut self, file: u32, len: u64) -> Result<(), Failed>
        requires { moment_of self.old < 2 ^ 62 }
        ensures told { Told (told self.old) (told self.new) (Adds (MayCut file len result)) }
        ensures time { moment_of self.new ≡ moment_of self.old + 1 }
        ensures counts { NoneFell (faults_of self.old) (faults_of self.new) }
        ensures cause { OnErr result (Rose (faults_of self.old file) (faults_of self.new file)) };

    /// Makes the file durable: a stop then leaves what it reads as, up to its length.
    fn sync(&mut self, file: u32) -> Result<(), Failed>
        requires { moment_of self.old < 2 ^ 62 }
        ensures told { Told (told self.old) (told self.new) (Adds (MaySync file result)) }
        ensures time { moment_of self.new ≡ moment_of self.old + 1 }
        ensures counts { NoneFell (faults_of self.old) (faults_of self.new) }
        ensures cause { OnErr result (Rose (faults_of self.old file) (faults_of self.new file)) };

    /// Where the store tells, its clock is its moment.
    ghost clock: { (store : Self) → IfSome (told store) (λ h. now h ≡ moment_of store) };
}

/// A store whose machine can stop at any moment, for tests.
pub trait Stop: Store {
    ghost use Rattle.store_api.specs.Told.{Told, StopsAs};

    /// The store after a stop now and a start: each file has one of the contents that the stop may leave, and nothing is
    /// pending. The bits of `choice` say which.
    fn stop(self, choice: u64) -> Self
        ensures told { Told (Self.told self) (Self.told result) StopsAs }
        ensures time { Self.moment_of result ≡ Self.moment_of self }
        ensures counts { NoneFell (Self.faults_of self) (Self.faults_of result) };
}
