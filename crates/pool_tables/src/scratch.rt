ghost use Rattle.std.specs.Prelude.{◌≡◌, ◌++◌, ◌&&◌, nat_le, length, OnOk, IfErr, replicate};
ghost use Rattle.std.specs.Char.{is_ascii_digit};
ghost use Rattle.std.specs.List.{list_all};
ghost use Rattle.volume_rows.specs.kinds.declared.refusal.Refusal.TheVariants.{Memory};
ghost use Rattle.volume_rows.specs.kinds.Answers.{AnswersBy};
ghost use Rattle.pool_tables.specs.Scratch.{scratch_name, is_scratch_name, is_rightly_named};
ghost use Rattle.pool_tables.specs.RowChanges.{scratch_volume};

use itoa::Buffer;
use std::alloc::Global;
use volume_rows::kinds::{Access, Capacity, Name, Refusal};
use volume_rows::{Holdings, Volume};

/// The name of the scratch volume with this file number: SCR and the number in eight or more decimal digits.
pub fn scratch_name(alloc: Global, file: u32) -> Result<Name, Refusal>
    ensures { AnswersBy (λ name. name) result (scratch_name file) }
{
    let mut digits = Buffer::new();
    let digits = digits.format(file).as_bytes();
    let mut bytes = Vec::from_slice(alloc, b"SCR")?;
    put_zeros(&mut bytes, 8usize.saturating_sub(digits.len()))?;
    bytes.extend_from_slice(digits)?;
    match Name::from_bytes(bytes) {
        Some(name) => Ok(name),
        None => Err(Refusal::Memory),
    }
}

/// Puts so many digits 0 at the end.
fn put_zeros(bytes: &mut Vec<u8>, count: usize) -> Result<(), Refusal>
    ensures put { OnOk result (bytes.new.items ≡ bytes.old.items ++ replicate count 48) }
    ensures memory { IfErr result (λ e. e ≡ Memory) }
{
    'zeros: for _ in 0..count {
        bytes.push(b'0')?;
    }
    Ok(())
}

/// The row of a new scratch volume.
pub fn scratch_volume(
    alloc: Global,
    pool: u32,
    file: u32,
    capacity: Capacity,
) -> Result<Volume, Refusal>
    ensures { AnswersBy (λ volume. volume) result (scratch_volume pool file capacity) }
{
    Ok(Volume {
        name: scratch_name(alloc, file)?,
        pool,
        scratch: true,
        capacity,
        access: Access::ReadWrite,
        end: 0,
        emptied: None,
        segments: Holdings::new(alloc),
    })
}

fn all_digits(bytes: &[u8]) -> bool
    ensures { result ≡ list_all is_ascii_digit bytes.now }
{
    bytes.iter().all(|b| b.is_ascii_digit())
}

fn has_eight_digits(bytes: &[u8]) -> bool
    ensures { result ≡ (nat_le 8 (length bytes.now) && list_all is_ascii_digit bytes.now) }
{
    bytes.len() >= 8 && all_digits(bytes)
}

fn is_scratch_text(bytes: &[u8]) -> bool
    ensures { result ≡ is_scratch_name bytes.now }
{
    match bytes.strip_prefix(b"SCR".as_slice()) {
        Some(digits) => has_eight_digits(digits),
        None => false,
    }
}

/// Whether only a scratch volume may have this name: SCR and eight or more digits.
pub fn is_scratch_name(name: &Name) -> bool
    ensures { result ≡ is_scratch_name name.now }
{
    is_scratch_text(name.as_bytes())
}

/// Whether a scratch volume has the name of its file number, or another volume none that only scratch volumes have. Its one
/// refusal is want of memory.
pub fn is_rightly_named(alloc: Global, file: u32, volume: &Volume) -> Result<bool, Refusal>
    ensures { AnswersBy (λ named. named) result (is_rightly_named file volume.now) }
{
    if volume.scratch {
        let name = scratch_name(alloc, file)?;
        Ok(volume.name == name)
    } else {
        Ok(!is_scratch_name(&volume.name))
    }
}
