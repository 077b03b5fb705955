ghost use Rattle.std.specs.Prelude.{◌≡◌, IsTrue, Some, None, if◌then◌else◌};
ghost use Rattle.kinds.specs.Rules.{is_limit, is_rule, is_archive_rule};

use std::marker::Model;

/// A limit of a copy group: a number of versions or of days, or none.
#[derive(Clone, Copy, Debug, PartialEq, Eq)]
pub enum Limit {
    At(u32),
    NoLimit,
}

/// How a copy group has files sent that change while they are read: SHRSTATIC or STATIC, which are the same here.
#[derive(Clone, Copy, Debug, PartialEq, Eq)]
pub enum Still {
    ShrStatic,
    Static,
}

/// What a backup copy group says: where versions go, and how many are kept for how long.
#[derive(Clone, Copy, Debug, PartialEq, Eq)]
pub struct BackupRule {
    /// DESTINATION: the number of the pool that takes new versions.
    pub destination: u32,
    /// FREQUENCY: how many days lie at least between two versions of a file; 0 to 9,999.
    pub frequency: u16,
    /// VEREXISTS: how many versions are kept of a file that is there; 1 to 9,999.
    pub ver_exists: Limit,
    /// VERDELETED: how many versions are kept of a file that is gone; 0 to 9,999.
    pub ver_deleted: Limit,
    /// RETEXTRA: for how many days an inactive version is kept; 0 to 9,999.
    pub ret_extra: Limit,
    /// RETONLY: for how many days the newest version of a file that is gone is kept; 0 to 9,999.
    pub ret_only: Limit,
    /// MODE=ABSOLUTE: a file is sent also where it did not change.
    pub absolute: bool,
    /// SERIALIZATION.
    pub still: Still,
}

/// The rule by which a group of versions is kept, and where it was found.
#[derive(Clone, Copy, Debug, PartialEq, Eq)]
pub enum RuleFound {
    /// The rule of the group's own management class.
    Own(BackupRule),
    /// The rule of the default management class.
    Default(BackupRule),
    /// No rule: inactive versions are kept for so many days, BACKRETENTION of the domain.
    Grace(u16),
}

/// A backup copy group: a rule whose parameters are in their ranges.
#[derive(Clone, Copy, Debug, PartialEq, Eq)]
pub struct CopyGroup {
    rule: BackupRule,
}

impl Model for CopyGroup {
    ghost use Rattle.std.specs.Prelude.{IsTrue};
    ghost use Rattle.kinds.specs.declared.rule.BackupRule.{BackupRule};
    ghost use Rattle.kinds.specs.Rules.{is_rule};

    ghost Value = { BackupRule };

    ghost view = { λ g. g.rule };

    ghost invariant = { λ g. IsTrue (is_rule g.rule) };

    ghost inverse = { λ r. record { rule = r } };
}

fn is_limit(least: u32, most: u32, limit: Limit) -> bool
    ensures { result ≡ is_limit least most limit }
{
    match limit {
        Limit::At(n) => least <= n && n <= most,
        Limit::NoLimit => true,
    }
}

fn is_rule(rule: &BackupRule) -> bool
    ensures { result ≡ is_rule rule.now }
{
    rule.frequency <= 9999
        && is_limit(1, 9999, rule.ver_exists)
        && is_limit(0, 9999, rule.ver_deleted)
        && is_limit(0, 9999, rule.ret_extra)
        && is_limit(0, 9999, rule.ret_only)
}

impl CopyGroup {
    /// The copy group with this rule; none where a parameter is outside its range.
    pub fn new(rule: BackupRule) -> Option<Self>
        ensures { result ≡ (if is_rule rule then Some rule else None) }
    {
        if is_rule(&rule) {
            Some(CopyGroup { rule })
        } else {
            None
        }
    }

    /// What the copy group says.
    pub fn rule(self) -> BackupRule
        ensures value { result ≡ self }
        ensures grammar { IsTrue (is_rule self) }
    {
        self.rule
    }
}

/// What an archive copy group says: where archived objects go, and for how long they are kept.
#[derive(Clone, Copy, Debug, PartialEq, Eq)]
pub struct ArchiveRule {
    /// DESTINATION: the number of the pool that takes archived objects.
    pub destination: u32,
    /// RETVER: for how many days an archived object is kept; 0 to 30,000.
    pub ret_ver: Limit,
}

/// An archive copy group: a rule whose parameters are in their ranges.
#[derive(Clone, Copy, Debug, PartialEq, Eq)]
pub struct ArchiveGroup {
    rule: ArchiveRule,
}

impl Model for ArchiveGroup {
    ghost use Rattle.std.specs.Prelude.{IsTrue};
    ghost use Rattle.kinds.specs.declared.rule.ArchiveRule.{ArchiveRule};
    ghost use Rattle.kinds.specs.Rules.{is_archive_rule};

    ghost Value = { ArchiveRule };

    ghost view = { λ g. g.rule };

    ghost invariant = { λ g. IsTrue (is_archive_rule g.rule) };

    ghost inverse = { λ r. record { rule = r } };
}

impl ArchiveGroup {
    /// The copy group with this rule; none where RETVER is outside its range.
    pub fn new(rule: ArchiveRule) -> Option<Self>
        ensures { result ≡ (if is_archive_rule rule then Some rule else None) }
    {
        if is_limit(0, 30000, rule.ret_ver) {
            Some(ArchiveGroup { rule })
        } else {
            None
        }
    }

    /// What the copy group says.
    pub fn rule(self) -> ArchiveRule
        ensures value { result ≡ self }
        ensures grammar { IsTrue (is_archive_rule self) }
    {
        self.rule
    }
}
