//! Days that lie behind today.

ghost use Rattle.std.specs.Prelude.{◌≡◌, true, nat_le};
ghost use Rattle.std.specs.Option.{option_map_or};

use kinds::Day;

/// Whether the day is today or before it.
pub(crate) fn is_by(day: Day, today: Day) -> bool
    ensures { result ≡ nat_le day today }
{
    day.number() <= today.number()
}

/// Whether the day, where there is one, is today or before it.
pub(crate) fn is_none_or_by(day: Option<Day>, today: Day) -> bool
    ensures { result ≡ option_map_or (λ d. nat_le d today) day true }
{
    match day {
        None => true,
        Some(day) => is_by(day, today),
    }
}
