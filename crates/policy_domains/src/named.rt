// Rows by name: defining and deleting them.
ghost use Rattle.std.specs.Prelude.{◌≡◌};
ghost use Rattle.std.specs.Result.{result_err};
ghost use Rattle.policy_domains.specs.Makings.{IsAsSaid, Brings};
ghost use Rattle.policy_domains.specs.Rows.{defined, deleted};

use kinds::{Name, Refusal};
use std::collections::BTreeMap;

/// How it is refused that a row is defined, where it is.
pub(crate) fn define_refusal<V>(rows: &BTreeMap<Name, V>, name: &Name) -> Option<Refusal>
    ensures { (value : V) → result ≡ result_err (defined name.now value rows.now.entries) }
{
    if rows.contains_key(name) {
        Some(Refusal::Exists)
    } else {
        None
    }
}

/// How it is refused that a row is deleted, where it is.
pub(crate) fn delete_refusal<V>(rows: &BTreeMap<Name, V>, name: &Name) -> Option<Refusal>
    ensures { result ≡ result_err (deleted name.now rows.now.entries) }
{
    if rows.contains_key(name) {
        None
    } else {
        Some(Refusal::NotFound)
    }
}

#[tactic(auto, using(crate::proofs::Parts::row_defined))]
pub(crate) fn define_row<V: Drop>(
    rows: &mut BTreeMap<Name, V>,
    name: &Name,
    value: V,
) -> Result<(), Refusal>
    ensures { Brings result rows.old.entries rows.new.entries (defined name.now value rows.old.entries) }
{
    let name = name.clone()?;
    rows.insert(name, value)?;
    Ok(())
}

#[tactic(auto, using(crate::proofs::Parts::row_deleted))]
pub(crate) fn delete_row<V: Drop>(rows: &mut BTreeMap<Name, V>, name: &Name)
    ensures { IsAsSaid rows.new.entries (deleted name.now rows.old.entries) }
{
    rows.remove(name);
}
