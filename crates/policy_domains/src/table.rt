ghost use Rattle.std.specs.Prelude.{◌≡◌, Some, IsSome, false, List, ℕ};
ghost use Rattle.std.specs.Result.{result_err};
ghost use Rattle.kinds.specs.Answers.{Becomes, AnswersBy};
ghost use Rattle.policy_domains.specs.Rows.{active_set, row_of};
ghost use Rattle.policy_domains.specs.Changes.{names_active, after, IsRefusedLike};
ghost use Rattle.policy_domains.specs.Rules.{rule_of, archive_of};
ghost use Rattle.policy_domains.specs.Fresh.{fresh};
ghost use Rattle.policy_domains.specs.Laws.{IsOfSets};
ghost use Rattle.policy_domains.specs.Ascending.{SetsAscend};

use crate::initial::{active_name, standard_domain, standard_name};
use crate::policy::PolicyDomain;
use crate::{changes, refusals};
use kinds::{ArchiveRule, Name, PolicyChange, Refusal, RuleFound};
use std::alloc::{AllocError, Global};
use std::collections::BTreeMap;
use std::marker::Model;

/// The policy domains of a server. They are seen as their rows in ascending order of the domains' names.
#[derive(Drop)]
pub struct Domains {
    alloc: Global,
    active: Name,
    rows: BTreeMap<Name, PolicyDomain>,
}

impl Model for Domains {
    ghost use Rattle.std.specs.Prelude.{◌≡◌, List, ℕ};
    ghost use Rattle.policy_domains.specs.Ascending.{SetsAscend};
    ghost use Rattle.policy_domains.specs.Rows.{DomainRow, active_set};

    ghost Value = { List (List ℕ × DomainRow) };

    ghost view = { λ d. d.rows.entries };

    ghost invariant = { λ d. (d.active ≡ active_set) × SetsAscend d.rows.entries };
}

/// Makes a change of the rows, or refuses it; `active` is the name of the set that binds clients.
#[tactic(auto, using(crate::proofs::Parts::refused, crate::proofs::Parts::made))]
fn change_rows(
    alloc: Global,
    active: &Name,
    rows: &mut BTreeMap<Name, PolicyDomain>,
    change: &PolicyChange,
) -> Result<(), Refusal>
    requires { active.now ≡ active_set }
    ensures { Becomes result rows.old.entries rows.new.entries (after change.now rows.old.entries) }
{
    match changes::refusal(rows, change) {
        Some(refusal) => Err(refusal),
        None => changes::make(alloc, active, rows, change),
    }
}

/// The sets of each domain stand by name: maps keep it. It takes a step for each domain, and no memory.
fn sets_ascend(domains: &BTreeMap<Name, PolicyDomain>)
    ensures { SetsAscend domains.now.entries }
{
    'domains: for (_, domain) in domains.iter() {
        let _sets = domain.sets().len();
    }
}

impl Domains {
    /// The policy domains with these rows. It takes a step for each domain; its one refusal is want of memory.
    pub fn from_rows(alloc: Global, rows: BTreeMap<Name, PolicyDomain>) -> Result<Self, Refusal>
        ensures { AnswersBy (λ domains. domains) result rows.entries }
    {
        let active = active_name(alloc)?;
        sets_ascend(&rows);
        Ok(Domains {
            alloc,
            active,
            rows,
        })
    }

    /// The policy of a server that was just formatted: the domain STANDARD with BACKRETENTION 30 and the sets ACTIVE and STANDARD, each with the
    /// class STANDARD as its default and with pool 1 as the destination of its copy group. Its one refusal is want of memory.
    pub fn fresh(alloc: Global) -> Result<Self, Refusal>
        ensures { AnswersBy (λ domains. domains) result fresh }
    {
        let domain = standard_domain(alloc)?;
        let mut rows = BTreeMap::new(alloc);
        rows.insert(standard_name(alloc)?, domain)?;
        Domains::from_rows(alloc, rows)
    }

    /// The domains in ascending order of their names.
    pub fn rows(&self) -> &BTreeMap<Name, PolicyDomain>
        ensures { result.now.entries ≡ self.now }
    {
        &self.rows
    }

    /// The sets of each domain stand in ascending order of their names, each name once. It only says so: it does nothing, and takes no step.
    pub fn are_ordered(&self)
        ensures { SetsAscend self.now }
    {
        let _ = &self.rows;
    }

    /// Makes a change (TSM Administrator's Guide: DEFINE, UPDATE and DELETE of DOMAIN, POLICYSET, MGMTCLASS and COPYGROUP, ASSIGN DEFMGMTCLASS, ACTIVATE
    /// POLICYSET). Something named that isn't there is NotFound, a name or copy group that is there already is Exists, and a set to be activated
    /// that has no default class is NoDefaultClass; the first of these that holds is answered. Nodes and pools are no matter of the domains: that a
    /// domain to be deleted has no node, and that a destination is there, the caller has tested.
    pub fn change(&mut self, change: &PolicyChange) -> Result<(), Refusal>
        requires { names_active change.now ≡ false }
        ensures after { Becomes result self.old self.new (after change.now self.old) }

        // A change of a set, a class, a copy group or a default class binds no client: that waits for the set's activation.
        ensures unbound { IsOfSets change.now → (domain class : List ℕ)
            → rule_of self.new domain class ≡ rule_of self.old domain class }
        ensures unarchived { IsOfSets change.now → (domain class : List ℕ)
            → archive_of self.new domain class ≡ archive_of self.old domain class }
    {
        change_rows(self.alloc, &self.active, &mut self.rows, change)
    }

    /// How `change` would refuse this change, where it would; one that names the set ACTIVE, which `change` doesn't take, is looked at as any other. It takes no memory.
    pub fn refusal(&self, change: &PolicyChange) -> Option<Refusal>
        ensures { result ≡ result_err (after change.now self.now) }
    {
        changes::refusal(&self.rows, change)
    }

    /// Whether a set may be activated: it is refused exactly as its activation would be. It takes no memory.
    #[tactic(auto, using(crate::proofs::Parts::refused, crate::proofs::Parts::not_refused_like))]
    pub fn validate(&self, domain: &Name, set: &Name) -> Result<(), Refusal>
        ensures { IsRefusedLike result (after (PolicyChange.Activate domain.now set.now) self.now) }
    {
        match refusals::of_activation(&self.rows, domain, set) {
            Some(refusal) => Err(refusal),
            None => Ok(()),
        }
    }

    /// The rule by which the versions of a file of this management class are kept: that of the class in the domain's set ACTIVE, else that of the
    /// set's default class, else BACKRETENTION. The domain is there. It takes no memory.
    pub fn rule_of(&self, domain: &Name, class: &Name) -> RuleFound
        requires { IsSome (row_of domain.now self.now) }
        ensures { rule_of self.now domain.now class.now ≡ Some result }
    {
        let row = self.rows.get(domain).unwrap();
        row.rule_of(&self.active, class)
    }

    /// The rule by which objects are kept that are archived under this management class: that of the class in the domain's set ACTIVE, where the class
    /// is there and has an archive copy group. The domain is there. It takes no memory.
    pub fn archive_of(&self, domain: &Name, class: &Name) -> Option<ArchiveRule>
        requires { IsSome (row_of domain.now self.now) }
        ensures { result ≡ archive_of self.now domain.now class.now }
    {
        let row = self.rows.get(domain).unwrap();
        row.archive_of(&self.active, class)
    }
}

impl Clone for Domains {
    ghost is_clone = { λ domains copy. copy ≡ domains };

    fn clone(&self) -> Result<Self, AllocError> {
        Ok(Domains {
            alloc: self.alloc,
            active: self.active.clone()?,
            rows: self.rows.clone()?,
        })
    }
}
