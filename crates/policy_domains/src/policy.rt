ghost use Rattle.std.specs.Prelude.{◌≡◌};
ghost use Rattle.policy_domains.specs.Makings.{Brings};
ghost use Rattle.policy_domains.specs.Rows.{active_set, changed};
ghost use Rattle.policy_domains.specs.Sets.{empty_domain, in_sets, set_changed, activated};
ghost use Rattle.policy_domains.specs.Changes.{set_after};
ghost use Rattle.policy_domains.specs.Rules.{rule_in, archive_in};

use crate::changes::make_in;
use crate::named::{define_row, delete_row};
use crate::sets::PolicySet;
use kinds::{ArchiveRule, Days, DefineOrDelete, Name, PolicyChange, Refusal, RuleFound};
use std::alloc::{AllocError, Global};
use std::collections::BTreeMap;
use std::marker::Model;

/// A policy domain: BACKRETENTION, and its policy sets.
#[derive(Drop)]
pub struct PolicyDomain {
    back_retention: Days,
    sets: BTreeMap<Name, PolicySet>,
}

impl Model for PolicyDomain {
    ghost use Rattle.policy_domains.specs.Rows.{DomainRow};

    ghost Value = { DomainRow };

    ghost view = { λ d. record { back_retention = d.back_retention; sets = d.sets.entries } };
}

fn change_set(
    alloc: Global,
    sets: &mut BTreeMap<Name, PolicySet>,
    verb: DefineOrDelete,
    set: &Name,
) -> Result<(), Refusal>
    ensures { Brings result sets.old.entries sets.new.entries (set_changed verb set.now sets.old.entries) }
{
    match verb {
        DefineOrDelete::Define => define_row(sets, set, PolicySet::empty(alloc)),
        DefineOrDelete::Delete => {
            delete_row(sets, set);
            Ok(())
        }
    }
}

fn change_within(
    sets: &mut BTreeMap<Name, PolicySet>,
    set: &Name,
    change: &PolicyChange,
) -> Result<(), Refusal>
    ensures { Brings result sets.old.entries sets.new.entries (changed set.now (set_after change.now) sets.old.entries) }
{
    match sets.get_mut(set) {
        Some(row) => make_in(row, change),
        None => Ok(()),
    }
}

impl PolicyDomain {
    /// A domain of these parts. It takes no memory.
    pub fn from_parts(back_retention: Days, sets: BTreeMap<Name, PolicySet>) -> Self
        ensures { result ≡ record { back_retention = back_retention; sets = sets.entries } }
    {
        PolicyDomain {
            back_retention,
            sets,
        }
    }

    /// BACKRETENTION: for how many days an inactive version is kept to which no copy group applies.
    pub fn back_retention(&self) -> Days
        ensures { result ≡ self.now.back_retention }
    {
        self.back_retention
    }

    /// The domain's policy sets in ascending order of their names.
    pub fn sets(&self) -> &BTreeMap<Name, PolicySet>
        ensures { result.now.entries ≡ self.now.sets }
    {
        &self.sets
    }

    pub(crate) fn empty(alloc: Global, back_retention: Days) -> Self
        ensures { result ≡ empty_domain back_retention }
    {
        PolicyDomain {
            back_retention,
            sets: BTreeMap::new(alloc),
        }
    }

    pub(crate) fn set_back_retention(&mut self, days: Days)
        ensures { self.new ≡ record { back_retention = days; sets = self.old.sets } }
    {
        self.back_retention = days;
    }

    pub(crate) fn change_set(
        &mut self,
        alloc: Global,
        verb: DefineOrDelete,
        set: &Name,
    ) -> Result<(), Refusal>
        ensures { Brings result self.old self.new (in_sets (set_changed verb set.now) self.old) }
    {
        change_set(alloc, &mut self.sets, verb, set)
    }

    pub(crate) fn change_within(&mut self, set: &Name, change: &PolicyChange) -> Result<(), Refusal>
        ensures { Brings result self.old self.new (in_sets (changed set.now (set_after change.now)) self.old) }
    {
        change_within(&mut self.sets, set, change)
    }

    pub(crate) fn activate(&mut self, active: &Name, set: &Name) -> Result<(), Refusal>
        requires { active.now ≡ active_set }
        ensures { Brings result self.old self.new (activated set.now self.old) }
    {
        match self.sets.get(set) {
            None => Ok(()),
            Some(row) => {
                let copy = row.clone()?;
                let name = active.clone()?;
                self.sets.insert(name, copy)?;
                Ok(())
            }
        }
    }

    pub(crate) fn rule_of(&self, active: &Name, class: &Name) -> RuleFound
        requires { active.now ≡ active_set }
        ensures { result ≡ rule_in class.now self.now }
    {
        let grace = RuleFound::Grace(self.back_retention.count());
        match self.sets.get(active) {
            None => grace,
            Some(set) => match (set.group_of(class), set.default_group()) {
                (Some(rule), _) => RuleFound::Own(rule),
                (None, Some(rule)) => RuleFound::Default(rule),
                (None, None) => grace,
            },
        }
    }

    pub(crate) fn archive_of(&self, active: &Name, class: &Name) -> Option<ArchiveRule>
        requires { active.now ≡ active_set }
        ensures { result ≡ archive_in class.now self.now }
    {
        self.sets.get(active)?.archive_group_of(class)
    }
}

impl Clone for PolicyDomain {
    ghost is_clone = { λ domain copy. copy ≡ domain };

    fn clone(&self) -> Result<Self, AllocError> {
        Ok(PolicyDomain {
            back_retention: self.back_retention,
            sets: self.sets.clone()?,
        })
    }
}
