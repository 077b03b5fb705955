// What is done with one open file, in as many calls of the system as it takes.
ghost use Rattle.std.specs.Prelude.{◌≡◌, ◌+◌, ◌<◌, ◌≤◌, ◌^◌, length, take, drop, IfOk, OnOk, IfSome, IsTrue};
ghost use Rattle.store_api.specs.Told.{Told, ReadsFrom};
ghost use Rattle.files_api.specs.Calls.{Looks, IsUsable};
ghost use Rattle.real_edge.specs.Holds.{WroteAll, CutTo};

use files_api::{Failed, Files};

// The greatest length that a file of the system can have.
const MAX_LEN: u64 = (1 << 63) - 1;

// Fills the buffer from the offset on. Where nothing more stands there it fails.
fn fill_from<F: Files>(
    files: &mut F,
    handle: &F::Handle,
    offset: u64,
    into: &mut [u8],
) -> Result<(), Failed>
    requires { offset + length into.old < 2 ^ 64 }
    ensures told { Told (F.told files.old) (F.told files.new) Looks }
    ensures long { length into.new ≡ length into.old }
    ensures bytes { OnOk result (IfSome (F.told files.old) (λ d. IsUsable d (F.label_of handle.now) → into.new ≡ take (length into.old) (drop offset (d.files (F.label_of handle.now).name).standing.bytes))) }
{
    let mut done = 0;
    'pieces: while done < into.len() {
        match files.read_at(handle, offset + done as u64, &mut into[done..]) {
            Ok(0) => return Err(Failed),
            Ok(count) => done += count,
            Err(failed) => return Err(failed),
        }
    }
    Ok(())
}

// Reads what stands from the offset on, at most the buffer's length, and answers how many bytes that are.
pub(crate) fn read_from<F: Files>(
    files: &mut F,
    handle: &F::Handle,
    offset: u64,
    into: &mut [u8],
) -> Result<usize, Failed>
    ensures told { Told (F.told files.old) (F.told files.new) Looks }
    ensures bound { IfOk result (λ count. count ≤ length into.new) }
    ensures bytes { IfOk result (λ count. IfSome (F.told files.old) (λ d. IsUsable d (F.label_of handle.now) → ReadsFrom (d.files (F.label_of handle.now).name).standing.bytes offset into.new count)) }
{
    let len = match files.len(handle) {
        Ok(len) => len,
        Err(failed) => return Err(failed),
    };
    let count = len.saturating_sub(offset).min(into.len() as u64) as usize;
    match fill_from(files, handle, offset, &mut into[..count]) {
        Ok(()) => Ok(count),
        Err(failed) => Err(failed),
    }
}

// Writes all the bytes from the offset on.
pub(crate) fn write_all<F: Files>(
    files: &mut F,
    handle: &F::Handle,
    offset: u64,
    bytes: &[u8],
) -> Result<(), Failed>
    requires { offset + length bytes.now < 2 ^ 63 }
    ensures told { Told (F.told files.old) (F.told files.new) (λ old new. IsUsable old (F.label_of handle.now) → WroteAll (F.label_of handle.now).name offset bytes.now result old new) }
{
    let mut done = 0;
    'pieces: while done < bytes.len() {
        match files.write_at(handle, offset + done as u64, &bytes[done..]) {
            Ok(0) => return Err(Failed),
            Ok(written) => done += written,
            Err(failed) => return Err(failed),
        }
    }
    Ok(())
}

// Whether a file can have these bytes from the offset on.
pub(crate) fn has_room(offset: u64, bytes: &[u8]) -> bool
    ensures { IsTrue result → offset + length bytes.now < 2 ^ 63 }
{
    match offset.checked_add(bytes.len() as u64) {
        Some(end) => end <= MAX_LEN,
        None => false,
    }
}

// Cuts the file to a length, where it is longer.
pub(crate) fn cut_to<F: Files>(files: &mut F, handle: &F::Handle, len: u64) -> Result<(), Failed>
    ensures told { Told (F.told files.old) (F.told files.new) (λ old new. IsUsable old (F.label_of handle.now) → CutTo (F.label_of handle.now).name len result old new) }
{
    match files.len(handle) {
        Ok(old) if len < old => files.cut(handle, len),
        Ok(_) => Ok(()),
        Err(failed) => Err(failed),
    }
}
