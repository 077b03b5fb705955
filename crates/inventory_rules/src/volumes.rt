//! What is asked of a volume by its row alone.

ghost use Rattle.std.specs.Prelude.{◌≡◌};
ghost use Rattle.inventory_rules.specs.Valid.{is_format_size, may_have};

use kinds::Access;

/// Whether a volume may have this access: OFFSITE in copy pools alone, DESTROYED in primary pools alone.
pub fn may_have(access: Access, primary: bool) -> bool
    ensures { result ≡ may_have access primary }
{
    match access {
        Access::ReadWrite => true,
        Access::ReadOnly => true,
        Access::Unavailable => true,
        Access::Offsite => !primary,
        Access::Destroyed => primary,
    }
}

/// Whether a volume of random access may have so many bytes: 1 to 65,536 MiB.
pub fn is_format_size(bytes: u64) -> bool
    ensures { result ≡ is_format_size bytes }
{
    bytes % (1 << 20) == 0 && (1 << 20 <= bytes && bytes <= 65536 << 20)
}
