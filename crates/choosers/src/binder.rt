ghost use Rattle.std.specs.Prelude.{◌≡◌, slice_get};
ghost use Rattle.std.specs.Option.{option_copied};
ghost use Rattle.choosers.specs.Rules.{bound_of, class_in, class_among, class_of};

use crate::classes::Classes;
use crate::matching::match_rules;
use crate::rule::{Bound, Rule};
use kinds::Name;
use std::marker::Model;

/// An include-exclude list by which paths are bound.
#[derive(Drop)]
pub struct Binder {
    rules: Vec<Rule>,
}

impl Model for Binder {
    ghost use Rattle.std.specs.Prelude.{List};
    ghost use Rattle.choosers.specs.declared.rule.Rule.{Rule};

    ghost Value = { List Rule };

    ghost view = { λ b. b.rules.items };
}

/// The class, where it is among these, and else the default class.
fn class_among<'a, C: Classes>(
    class: Option<&'a Name>,
    classes: &C,
    default_class: &'a Name,
) -> &'a Name
    ensures { result.now ≡ class_among (C.has classes.now) default_class.now (option_copied class.entry) }
{
    match class {
        Some(class) => {
            if classes.has(class) {
                class
            } else {
                default_class
            }
        }
        None => default_class,
    }
}

impl Binder {
    /// A binder by these rules. It takes no memory.
    pub fn new(rules: Vec<Rule>) -> Self
        ensures { result ≡ rules.items }
    {
        Binder { rules }
    }

    /// The rules.
    pub fn rules(&self) -> &[Rule]
        ensures { result.now ≡ self.now }
    {
        self.rules.as_slice()
    }

    /// How the rules bind a path: the last rule whose pattern matches it decides. It takes no memory.
    pub fn bind(&self, path: &[u8]) -> Bound
        ensures { result ≡ bound_of self.now path.now }
    {
        match_rules(self.rules.as_slice(), path)
    }

    /// The class that the rule with this number names, where it names one.
    fn class_at(&self, number: usize) -> Option<&Name>
        ensures { option_copied result ≡ class_in (slice_get self.now number) }
    {
        match self.rules.as_slice().get(number) {
            Some(rule) => rule.class(),
            None => None,
        }
    }

    /// The management class to which a path is bound among these classes; none where it is left out. A rule that names no
    /// class, or one that isn't among them, binds to the default class, and so does a path that no rule matches. It takes
    /// no memory.
    pub fn class_of<'a, C: Classes>(
        &'a self,
        path: &[u8],
        classes: &C,
        default_class: &'a Name,
    ) -> Option<&'a Name>
        ensures { option_copied result ≡ class_of (C.has classes.now) default_class.now self.now path.now }
    {
        match self.bind(path) {
            Bound::ByRule(number) => {
                let class = self.class_at(number);
                Some(class_among(class, classes, default_class))
            }
            Bound::Default => Some(default_class),
            Bound::Excluded => None,
        }
    }
}
