// The traits of a source and of a sink.
ghost use Rattle.std.specs.Prelude.{◌≡◌, ◌<◌, ◌≤◌, List, ℕ, Option, length, take, IfOk, OnOk, OnErr};
ghost use Rattle.std.specs.Io.{ReadsAtMost, WritesAtMost};
ghost use Rattle.std.specs.Io.KnownBytes.{ReadConsumes, WriteAppends, Appends};
ghost use Rattle.tree_api.specs.Cause.{HasCause};

/// The call failed: the count of faults of what was called rose in it.
#[derive(Clone, Copy)]
pub struct Failed;

/// Where bytes come from, one piece after another.
pub trait Source {
    /// The bytes that are still to come, where the source tells them.
    ghost left: { Self → Option (List ℕ) };

    /// How often a call on the source has failed.
    ghost fault_count: { Self → ℕ };

    /// The count of faults. It never falls, and stays at its type's last value.
    fn faults(&self) -> u64
        ensures { result ≡ fault_count self.now };

    /// Gives the next bytes, as many as the answer says, at the front of the buffer. None for a buffer that has room
    /// means that the source is at its end. A call that failed gave nothing.
    fn take(&mut self, into: &mut [u8]) -> Result<usize, Failed>
        ensures bound { ReadsAtMost result into.new }
        ensures bytes { ReadConsumes (left self.old) (left self.new) result into.new }
        ensures cause { HasCause (fault_count self.old) (fault_count self.new) result };
}

/// Where bytes go, one piece after another.
pub trait Sink {
    /// The bytes that were put so far, where the sink tells them.
    ghost contents: { Self → Option (List ℕ) };

    /// How often a call on the sink has failed.
    ghost fault_count: { Self → ℕ };

    /// The count of faults. It never falls, and stays at its type's last value.
    fn faults(&self) -> u64
        ensures { result ≡ fault_count self.now };

    /// Takes bytes from the front of the piece, and answers how many: of a piece that isn't empty at least one. A call
    /// that failed took none.
    fn put(&mut self, bytes: &[u8]) -> Result<usize, Failed>
        ensures bound { WritesAtMost result bytes.now }
        ensures some { IfOk result (λ count. 0 < length bytes.now → 0 < count) }
        ensures bytes { WriteAppends (contents self.old) (contents self.new) result bytes.now }
        ensures cause { HasCause (fault_count self.old) (fault_count self.new) result };
}

/// Puts all the bytes, in as many pieces as the sink wants. On a fault a front of them was put.
pub fn put_all<O: Sink>(out: &mut O, bytes: &[u8]) -> Result<(), Failed>
    ensures whole { OnOk result (Appends (O.contents out.old) (O.contents out.new) bytes.now) }
    ensures front { OnErr result ((count : ℕ) × (count ≤ length bytes.now) × Appends (O.contents out.old) (O.contents out.new) (take count bytes.now)) }
    ensures cause { HasCause (O.fault_count out.old) (O.fault_count out.new) result }
{
    let mut done = 0;
    'pieces: while done < bytes.len() {
        match out.put(&bytes[done..]) {
            Ok(count) => done += count,
            Err(failed) => return Err(failed),
        }
    }
    Ok(())
}
