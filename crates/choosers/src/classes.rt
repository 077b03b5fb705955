ghost use Rattle.std.specs.Prelude.{◌≡◌, List, ℕ, Bool, is_some};
ghost use Rattle.policy_domains.specs.Rows.{row_of};

use kinds::Name;
use policy_domains::PolicySet;

/// The management classes to which files may be bound, as those of the active policy set of a node's domain.
pub trait Classes {
    ghost has: { Self → List ℕ → Bool };

    /// Whether a class of this name is there.
    fn has(&self, class: &Name) -> bool
        ensures { result ≡ has self.now class.now };
}

impl Classes for PolicySet {
    ghost has = { λ set class. is_some (row_of class set.classes) };

    fn has(&self, class: &Name) -> bool {
        self.classes().contains_key(class)
    }
}
