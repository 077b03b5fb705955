//! Ordered maps: their entries' number in four bytes, and the entries in strictly ascending order of keys.

ghost use Rattle.std.specs.Prelude.{◌≡◌, ◌<◌, ◌≤◌, ◌^◌, ◌++◌, ◌∷◌, [], length, OnOk, IfOk, IfErr, IsTrue, All, Some, None};
ghost use Rattle.std.specs.List.{flat_map, AllByRecursion};
ghost use Rattle.std.specs.BTreeMap.{keys};
ghost use Rattle.std.specs.declared.cmp.Ordering.TheVariants.{Greater};
ghost use Rattle.fields.specs.Forms.{pair, ascending, ascending_at, entry_at, is_behind, last_key};
ghost use Rattle.fields.specs.Gives.{Fails, GivesBy};

use crate::codec::{Codec, Decoder};
use crate::errors::{Fault, Memory};
use crate::formed::Formed;
use crate::puts::put_u32;
use crate::reader::Reader;
use std::alloc::Global;
use std::collections::BTreeMap;

/// Puts the entries' spellings at the end, one after the other.
fn put_entries<K: Ord + Formed, V: Drop, C: Codec<V>>(
    out: &mut Vec<u8>,
    map: &BTreeMap<K, V>,
) -> Result<(), Memory>
    requires { AllByRecursion (pair K.form C.form).Fits map.now.entries }
    ensures { OnOk result (out.new.items ≡ out.old.items ++ flat_map (pair K.form C.form).spell map.now.entries) }
{
    'entries: for (key, value) in map.iter() {
        key.write_to(out)?;
        C::put(out, value)?;
    }
    Ok(())
}

/// Puts a map at the end: the entries' number in four bytes, and their spellings. After an `Err` a part of them may stand there.
pub fn put_table<K: Ord + Formed, V: Drop, C: Codec<V>>(
    out: &mut Vec<u8>,
    map: &BTreeMap<K, V>,
) -> Result<(), Memory>
    requires short { length map.now.entries < 2 ^ 32 }
    requires fit { AllByRecursion (pair K.form C.form).Fits map.now.entries }
    ensures { OnOk result (out.new.items ≡ out.old.items ++ (ascending K.cmp (length map.now.entries) K.form C.form).spell map.now.entries) }
{
    put_u32(out, map.len() as u32)?;
    put_entries::<K, V, C>(out, map)?;
    Ok(())
}

/// Whether the key comes behind all that the map has.
fn is_next<K: Ord, V>(map: &BTreeMap<K, V>, key: &K) -> bool
    ensures next { result ≡ is_behind K.cmp (last_key map.now.entries) key.now }
    ensures above { IsTrue result → All (λ k. K.cmp key.now k ≡ Greater) (keys map.now) }
{
    match map.last_key_value() {
        None => true,
        Some((last, _)) => last.cmp(key).is_lt(),
    }
}

/// Takes the next entry, whose key comes behind all that the map has.
fn take_entry<K: Ord + Formed, V: Drop, D: Decoder<V>>(
    alloc: Global,
    map: &mut BTreeMap<K, V>,
    reader: &mut Reader<'_>,
) -> Result<(), Fault>
    ensures ok { OnOk result ((e : K × V) × (map.new.entries ≡ map.old.entries ++ e ∷ [])
        × (entry_at K.cmp (pair K.form D.form).read (last_key map.old.entries) reader.old.rest ≡ Some (e, reader.new.rest))) }
    ensures err { IfErr result (λ f. Fails f (entry_at K.cmp (pair K.form D.form).read (last_key map.old.entries) reader.old.rest)) }
{
    let key = K::read_from(alloc, reader)?;
    let value = D::take(alloc, reader)?;
    if !is_next(map, &key) {
        return Err(Fault::Malformed);
    }
    map.insert(key, value)?;
    Ok(())
}

/// Takes so many entries.
fn take_entries<K: Ord + Formed, V: Drop, D: Decoder<V>>(
    alloc: Global,
    reader: &mut Reader<'_>,
    count: u32,
) -> Result<BTreeMap<K, V>, Fault>
    ensures gives { GivesBy (λ m. m.entries) result reader.new.rest (ascending_at K.cmp (pair K.form D.form).read None count reader.old.rest) }
    ensures count { IfOk result (λ m. length m.entries ≡ count) }
{
    let mut map = BTreeMap::new(alloc);
    'entries: for _ in 0..count {
        take_entry::<K, V, D>(alloc, &mut map, reader)?;
    }
    Ok(map)
}

/// Takes a map of at most `most` entries. After an `Err` the reader stands anywhere.
pub fn take_table<K: Ord + Formed, V: Drop, D: Decoder<V>>(
    alloc: Global,
    reader: &mut Reader<'_>,
    most: u32,
) -> Result<BTreeMap<K, V>, Fault>
    ensures gives { GivesBy (λ m. m.entries) result reader.new.rest ((ascending K.cmp most K.form D.form).read reader.old.rest) }
    ensures few { IfOk result (λ m. length m.entries ≤ most) }
{
    let count = reader.u32()?;
    if count > most {
        return Err(Fault::Malformed);
    }
    take_entries::<K, V, D>(alloc, reader, count)
}
