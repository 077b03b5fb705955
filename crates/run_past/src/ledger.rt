//! The last transaction that is told of each key. A key may stand with none, so that telling takes no memory.
ghost use Rattle.std.specs.Prelude.{◌≡◌, ◌&&◌, true, IfErr, OnOk};
ghost use Rattle.std.specs.BTreeMap.{is_at};
ghost use Rattle.kinds.specs.declared.refusal.Refusal.TheVariants.{Memory};
ghost use Rattle.run_past.specs.Told.{has_key, now_or, told_at};

use kinds::Refusal;
use std::collections::BTreeMap;

/// The number that is told of the key, where one is.
pub(crate) fn told<K: Ord>(map: &BTreeMap<K, Option<u64>>, key: &K) -> Option<u64>
    ensures { result ≡ told_at (K.cmp key.now) map.now.entries }
{
    match map.get(key) {
        Some(number) => *number,
        None => None,
    }
}

/// Takes the memory for what may be told of the key. Refused only for want of it. The same is told as before.
pub(crate) fn make_room<K: Ord + Drop>(
    map: &mut BTreeMap<K, Option<u64>>,
    key: K,
) -> Result<(), Refusal>
    ensures same { (q : K) → told_at (K.cmp q) map.new.entries ≡ told_at (K.cmp q) map.old.entries }
    ensures keeps { (q : K) → has_key (K.cmp q) map.old.entries ≡ true → has_key (K.cmp q) map.new.entries ≡ true }
    ensures room { OnOk result (has_key (K.cmp key) map.new.entries ≡ true) }
    ensures memory { IfErr result (λ e. e ≡ Memory) }
{
    if map.contains_key(&key) {
        return Ok(());
    }
    map.insert(key, None)?;
    Ok(())
}

/// Tells this number of the key, where it is to be told. There has to be room for it.
pub(crate) fn tell<K: Ord>(map: &mut BTreeMap<K, Option<u64>>, key: &K, did: bool, number: u64)
    requires { has_key (K.cmp key.now) map.old.entries ≡ true }
    ensures tells { (q : K) → told_at (K.cmp q) map.new.entries ≡ now_or (is_at (K.cmp key.now) q && did) number (told_at (K.cmp q) map.old.entries) }
    ensures keeps { (q : K) → has_key (K.cmp q) map.new.entries ≡ has_key (K.cmp q) map.old.entries }
{
    if !did {
        return;
    }
    if let Some(told) = map.get_mut(key) {
        *told = Some(number);
    }
}
