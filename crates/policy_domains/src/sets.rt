ghost use Rattle.std.specs.Prelude.{◌≡◌, Some};
ghost use Rattle.std.specs.Option.{option_copied};
ghost use Rattle.policy_domains.specs.Makings.{IsAsSaid, Brings};
ghost use Rattle.policy_domains.specs.Rows.{changed, defined};
ghost use Rattle.policy_domains.specs.Sets.{bare_class, empty_set, other_default, class_changed};
ghost use Rattle.policy_domains.specs.Changes.{in_group};
ghost use Rattle.policy_domains.specs.Groups.{groups_changed};
ghost use Rattle.policy_domains.specs.Rules.{group_of, default_group, archive_group_of};

use crate::classes::{AnyGroup, ManagementClass};
use crate::named::{define_row, delete_row};
use kinds::{ArchiveRule, BackupRule, DefineOrDelete, Name, Refusal, Verb};
use std::alloc::{AllocError, Global};
use std::collections::BTreeMap;
use std::marker::Model;

/// A policy set: its default management class, where it has one, and its classes.
#[derive(Drop)]
pub struct PolicySet {
    default_class: Option<Name>,
    classes: BTreeMap<Name, ManagementClass>,
}

impl Model for PolicySet {
    ghost use Rattle.policy_domains.specs.Rows.{SetRow};

    ghost Value = { SetRow };

    ghost view = { λ s. record { default_class = s.default_class; classes = s.classes.entries } };
}

fn change_group(
    classes: &mut BTreeMap<Name, ManagementClass>,
    verb: Verb,
    class: &Name,
    group: AnyGroup,
)
    ensures { IsAsSaid classes.new.entries (changed class.now (groups_changed verb group) classes.old.entries) }
{
    match classes.get_mut(class) {
        Some(place) => place.change(verb, group),
        None => (),
    }
}

/// The default class, where it is another class than this one.
fn other_default(default_class: Option<Name>, class: &Name) -> Option<Name>
    ensures { result ≡ other_default class.now default_class }
{
    match default_class {
        None => None,
        Some(name) => { if name == *class { None } else { Some(name) } }
    }
}

/// Puts a class without copy groups under its name.
fn define_bare(classes: &mut BTreeMap<Name, ManagementClass>, class: &Name) -> Result<(), Refusal>
    ensures { Brings result classes.old.entries classes.new.entries (defined class.now bare_class classes.old.entries) }
{
    let bare = ManagementClass {
        backup: None,
        archive: None,
    };
    define_row(classes, class, bare)
}

impl PolicySet {
    /// A set of these parts. It takes no memory.
    pub fn from_parts(default_class: Option<Name>, classes: BTreeMap<Name, ManagementClass>) -> Self
        ensures { result ≡ record { default_class = default_class; classes = classes.entries } }
    {
        PolicySet {
            default_class,
            classes,
        }
    }

    /// The set's default class, where it has one.
    pub fn default_class(&self) -> Option<&Name>
        ensures { option_copied result ≡ self.now.default_class }
    {
        self.default_class.as_ref()
    }

    /// The set's classes in ascending order of their names.
    pub fn classes(&self) -> &BTreeMap<Name, ManagementClass>
        ensures { result.now.entries ≡ self.now.classes }
    {
        &self.classes
    }

    pub(crate) fn empty(alloc: Global) -> Self
        ensures { result ≡ empty_set }
    {
        PolicySet {
            default_class: None,
            classes: BTreeMap::new(alloc),
        }
    }

    /// The rule of a class, where the class is there and has a copy group.
    pub(crate) fn group_of(&self, class: &Name) -> Option<BackupRule>
        ensures { result ≡ group_of class.now self.now }
    {
        match self.classes.get(class)?.backup {
            Some(group) => Some(group.rule()),
            None => None,
        }
    }

    /// The archive rule of a class, where the class is there and has one.
    pub(crate) fn archive_group_of(&self, class: &Name) -> Option<ArchiveRule>
        ensures { result ≡ archive_group_of class.now self.now }
    {
        match self.classes.get(class)?.archive {
            Some(group) => Some(group.rule()),
            None => None,
        }
    }

    /// The rule of the default class.
    pub(crate) fn default_group(&self) -> Option<BackupRule>
        ensures { result ≡ default_group self.now }
    {
        match &self.default_class {
            Some(class) => self.group_of(class),
            None => None,
        }
    }

    pub(crate) fn change_class(&mut self, verb: DefineOrDelete, class: &Name) -> Result<(), Refusal>
        ensures { Brings result self.old self.new (class_changed verb class.now self.old) }
    {
        match verb {
            DefineOrDelete::Define => define_bare(&mut self.classes, class),
            DefineOrDelete::Delete => {
                delete_row(&mut self.classes, class);
                self.default_class = other_default(self.default_class.take(), class);
                Ok(())
            }
        }
    }

    pub(crate) fn change_group(&mut self, verb: Verb, class: &Name, group: AnyGroup)
        ensures { IsAsSaid self.new (in_group verb class.now group self.old) }
    {
        change_group(&mut self.classes, verb, class, group)
    }

    pub(crate) fn set_default(&mut self, class: Name)
        ensures { self.new ≡ record { default_class = Some class; classes = self.old.classes } }
    {
        self.default_class = Some(class);
    }
}

impl Clone for PolicySet {
    ghost is_clone = { λ set copy. copy ≡ set };

    fn clone(&self) -> Result<Self, AllocError> {
        Ok(PolicySet {
            default_class: self.default_class.clone()?,
            classes: self.classes.clone()?,
        })
    }
}
