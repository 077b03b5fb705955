ghost use Rattle.std.specs.Prelude.{◌≡◌};
ghost use Rattle.std.specs.Result.{result_err};
ghost use Rattle.policy_domains.specs.Makings.{IsAsSaid};
ghost use Rattle.policy_domains.specs.Groups.{group_changed, groups_changed};

use kinds::{ArchiveGroup, CopyGroup, Refusal, Verb};

/// A management class: its backup and its archive copy group, where it has them.
#[derive(Clone, Copy, Debug, PartialEq, Eq)]
pub struct ManagementClass {
    pub backup: Option<CopyGroup>,
    pub archive: Option<ArchiveGroup>,
}

/// A copy group of a class, of either type.
#[derive(Clone, Copy)]
pub(crate) enum AnyGroup {
    Backup(CopyGroup),
    Archive(ArchiveGroup),
}

/// How a change of a copy group is refused, where it is.
fn refusal_of<G>(verb: Verb, group: &G, there: &Option<G>) -> Option<Refusal>
    ensures { result ≡ result_err (group_changed verb group.now there.now) }
{
    match (verb, there) {
        (Verb::Define, Some(_)) => Some(Refusal::Exists),
        (Verb::Define, None) | (Verb::Update, Some(_)) | (Verb::Delete, Some(_)) => None,
        (Verb::Update, None) | (Verb::Delete, None) => Some(Refusal::NotFound),
    }
}

/// The copy group that a change leaves where it isn't refused.
#[tactic(auto, using(crate::proofs::Parts::group_put, crate::proofs::Parts::group_replaced, crate::proofs::Parts::group_deleted))]
fn left_by<G: Drop>(verb: Verb, group: G, there: &Option<G>) -> Option<G>
    ensures { IsAsSaid result (group_changed verb group there.now) }
{
    match verb {
        Verb::Define => Some(group),
        Verb::Update => Some(group),
        Verb::Delete => None,
    }
}

impl ManagementClass {
    /// How a change of one of the class's copy groups is refused, where it is.
    #[tactic(auto, using(crate::proofs::Errors::error_within))]
    pub(crate) fn refusal(&self, verb: Verb, group: AnyGroup) -> Option<Refusal>
        ensures { result ≡ result_err (groups_changed verb group self.now) }
    {
        match group {
            AnyGroup::Backup(group) => refusal_of(verb, &group, &self.backup),
            AnyGroup::Archive(group) => refusal_of(verb, &group, &self.archive),
        }
    }

    /// Changes one of the class's copy groups.
    #[tactic(auto, using(crate::proofs::Parts::within_said))]
    pub(crate) fn change(&mut self, verb: Verb, group: AnyGroup)
        ensures { IsAsSaid self.new (groups_changed verb group self.old) }
    {
        match group {
            AnyGroup::Backup(group) => self.backup = left_by(verb, group, &self.backup),
            AnyGroup::Archive(group) => self.archive = left_by(verb, group, &self.archive),
        }
    }
}
