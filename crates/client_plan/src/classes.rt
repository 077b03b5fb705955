ghost use Rattle.std.specs.Prelude.{◌≡◌};
ghost use Rattle.std.specs.Option.{option_copied};
ghost use Rattle.client_plan.specs.Classes.{class_row, has_class, own_group, destination, is_excluded, is_left_out, bound_to, bound_under};

use choosers::{Binder, Bound, Classes};
use inventory_work::{ClassRule, Rules};
use kinds::{BackupRule, Name, Path, RuleFound};
use std::marker::Model;

/// The management classes of a node's active policy set, to which its files may be bound.
#[derive(Drop)]
pub struct ActiveClasses {
    rules: Rules,
}

impl Model for ActiveClasses {
    ghost use Rattle.inventory_work.specs.declared.lines.Rules.{Rules};

    ghost Value = { Rules };

    ghost view = { λ c. c.rules };
}

/// The row of the class with this name.
fn class_row<'a>(classes: &'a [ClassRule], name: &Name) -> Option<&'a ClassRule>
    ensures { option_copied result ≡ class_row name.now classes.now }
{
    classes.iter().find(|row| row.class == *name)
}

/// Whether the class is one of these.
fn has_class(classes: &[ClassRule], name: &Name) -> bool
    ensures { result ≡ has_class classes.now name.now }
{
    classes.iter().any(|row| row.class == *name)
}

impl ActiveClasses {
    /// The classes that the database answers for a node. It takes no memory.
    pub fn new(rules: Rules) -> Self
        ensures { result ≡ rules }
    {
        ActiveClasses { rules }
    }

    /// The row of the class with this name.
    fn row(&self, name: &Name) -> Option<&ClassRule>
        ensures { option_copied result ≡ class_row name.now self.now.classes }
    {
        class_row(self.rules.classes.as_slice(), name)
    }

    /// The pool that takes the files of the class with this name, where the class has a copy group of its own.
    pub fn destination(&self, name: &Name) -> Option<u32>
        ensures { result ≡ destination self.now name.now }
    {
        match self.row(name) {
            Some(row) => match own_group(row.rule) {
                Some(group) => Some(group.destination),
                None => None,
            },
            None => None,
        }
    }

    /// The class of a path where this is the default class.
    fn bound_under(&self, binder: &Binder, path: &Path, default_class: &Name) -> Option<&ClassRule>
        ensures { option_copied result ≡ bound_under self.now binder.now path.now default_class.now }
    {
        match binder.class_of(path.as_bytes(), self, default_class) {
            Some(class) => self.row(class),
            None => None,
        }
    }

    /// The class to which the path is bound: none where it is left out, and none where no policy set is active.
    pub(crate) fn bound_to(&self, binder: &Binder, path: &Path) -> Option<&ClassRule>
        ensures { option_copied result ≡ bound_to self.now binder.now path.now }
    {
        match &self.rules.default_class {
            Some(default_class) => self.bound_under(binder, path, default_class),
            None => None,
        }
    }
}

impl Classes for ActiveClasses {
    ghost has = { λ rules class. has_class rules.classes class };

    fn has(&self, class: &Name) -> bool {
        has_class(self.rules.classes.as_slice(), class)
    }
}

/// The copy group that a class has itself.
pub(crate) fn own_group(rule: RuleFound) -> Option<BackupRule>
    ensures { result ≡ own_group rule }
{
    match rule {
        RuleFound::Own(rule) => Some(rule),
        RuleFound::Default(_) => None,
        RuleFound::Grace(_) => None,
    }
}

fn is_excluded(bound: Bound) -> bool
    ensures { result ≡ is_excluded bound }
{
    match bound {
        Bound::ByRule(_) => false,
        Bound::Default => false,
        Bound::Excluded => true,
    }
}

/// Whether the path is left out.
pub(crate) fn is_left_out(binder: &Binder, path: &Path) -> bool
    ensures { result ≡ is_left_out binder.now path.now }
{
    is_excluded(binder.bind(path.as_bytes()))
}
