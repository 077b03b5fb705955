// Reading a client's file.
ghost use Rattle.std.specs.Prelude.{◌≡◌, ◌≤◌, ◌<◌, length};
ghost use Rattle.client_files.specs.Reading.{Ended, Reads, file_of};

use client_trees::Tree;
use kinds::{Path, Refusal};

/// Reads the next bytes of a file of this size from the place on into the buffer, as many as the buffer holds or as there are
/// below the size.
pub(crate) fn next_piece<T: Tree>(
    tree: &mut T,
    path: &Path,
    at: u64,
    size: u64,
    buffer: &mut [u8],
) -> Result<usize, Refusal>
    requires some { 1 ≤ length buffer.old }
    requires below { at < size }
    ensures reads { Reads (file_of (T.files tree.old) path.now) at size buffer.new (T.fault_count tree.old) (T.fault_count tree.new) result }
    ensures kept { T.files tree.new ≡ T.files tree.old }
    ensures rises { T.fault_count tree.old ≤ T.fault_count tree.new }
    ensures long { length buffer.new ≡ length buffer.old }
{
    let room = buffer.len().min((size - at) as usize);
    match tree.read(path, at, &mut buffer[..room]) {
        Ok(count) => {
            if count == 0 {
                Err(Refusal::Changed {
                    listed: size,
                    read: at,
                })
            } else {
                Ok(count)
            }
        }
        Err(_) => Err(Refusal::TreeFault),
    }
}

/// Sees that a file has no bytes behind its listed length.
pub(crate) fn see_end<T: Tree>(tree: &mut T, path: &Path, size: u64) -> Result<(), Refusal>
    ensures ended { Ended (file_of (T.files tree.old) path.now) size (T.fault_count tree.old) (T.fault_count tree.new) result }
    ensures kept { T.files tree.new ≡ T.files tree.old }
    ensures rises { T.fault_count tree.old ≤ T.fault_count tree.new }
{
    let mut one = [0u8; 1];
    match tree.read(path, size, &mut one) {
        Ok(count) => {
            if count == 0 {
                Ok(())
            } else {
                Err(Refusal::Changed {
                    listed: size,
                    read: size.saturating_add(1),
                })
            }
        }
        Err(_) => Err(Refusal::TreeFault),
    }
}
