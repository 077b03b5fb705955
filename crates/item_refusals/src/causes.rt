//! Refusals of which each may hold or not.

ghost use Rattle.std.specs.Prelude.{◌≡◌};
ghost use Rattle.kinds.specs.Refusals.{foremost, unless, bad_value};
ghost use Rattle.inventory_rules.specs.inventory_rows.version_groups.Entries.{all_later};
ghost use Rattle.inventory_rules.specs.Versions.{gone_or_unknown};

use crate::apart::{Apart, are_apart};
use kinds::{Refusal, bad_value, unless};

/// A version isn't there: this transaction removed it, or none of the run did.
pub fn gone_or_unknown(removed: Option<u64>) -> Refusal
    ensures { result ≡ gone_or_unknown removed }
{
    match removed {
        Some(number) => Refusal::Gone(number),
        None => Refusal::NotFound,
    }
}

/// Whether things are named once, and the refusal where they are not.
pub(crate) fn once<T: Apart>(items: &[T]) -> Option<Refusal>
    ensures { result ≡ foremost (unless (all_later T.differs items.now) bad_value) }
{
    unless(are_apart(items), bad_value())
}
