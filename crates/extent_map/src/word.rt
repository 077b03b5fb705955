ghost use Rattle.std.specs.Prelude.{◌≡◌, ℕ, ◌<◌, ◌≤◌, Bool, if◌then◌else◌, MatchOption};
ghost use Rattle.extent_map.specs.Bits.{is_set, is_between, NoneSet, IsLowest};

/// The lowest bit that is set in a word that isn't 0.
pub(crate) fn lowest(word: u64) -> usize
    requires { 0 < word }
    ensures { IsLowest (is_set word) 0 64 result }
{
    word.trailing_zeros() as usize
}

/// The lowest bit from bit `low` on that is set.
pub(crate) fn lowest_from(word: u64, low: usize) -> Option<usize>
    requires { low < 64 }
    ensures { MatchOption result (NoneSet (is_set word) low 64) (IsLowest (is_set word) low 64) }
{
    let rest = word >> low;
    if rest == 0 {
        None
    } else {
        Some(low + lowest(rest))
    }
}

/// The word with its bits from `low` to before `high` set or cleared.
pub(crate) fn with_bits(word: u64, low: usize, high: usize, set: bool) -> u64
    requires some { low < high }
    requires within { high ≤ 64 }
    ensures { (i : ℕ) → i < 64 → is_set result i ≡ (if is_between low high i then set else is_set word i) }
{
    let mask = (u64::MAX >> (64 - (high - low))) << low;
    if set { word | mask } else { word & !mask }
}
