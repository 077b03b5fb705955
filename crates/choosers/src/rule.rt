ghost use Rattle.std.specs.Prelude.{◌≡◌};

use kinds::Name;
use path_patterns::Pattern;

/// A rule of an include-exclude list.
#[derive(Drop)]
pub enum Rule {
    /// Paths that match are sent, and are bound to this management class, or to the default class where none is named.
    Include {
        pattern: Pattern,
        class: Option<Name>,
    },
    /// Paths that match are left out.
    Exclude {
        pattern: Pattern,
    },
}

/// How a path is bound.
#[derive(Clone, Copy, Debug)]
pub enum Bound {
    /// By the INCLUDE rule with this number in the list, counted from 0.
    ByRule(usize),
    /// To the default class, since no rule matches.
    Default,
    /// It is left out.
    Excluded,
}

impl Rule {
    ghost use Rattle.std.specs.Option.{option_copied};
    ghost use Rattle.choosers.specs.Rules.{pattern_of, class_named, said_by};

    /// The pattern of the paths that the rule is for.
    pub fn pattern(&self) -> &Pattern
        ensures { result.now ≡ pattern_of self.now }
    {
        match self {
            Rule::Include { pattern, .. } => pattern,
            Rule::Exclude { pattern } => pattern,
        }
    }

    /// The management class that the rule names, where it names one.
    pub fn class(&self) -> Option<&Name>
        ensures { option_copied result ≡ class_named self.now }
    {
        match self {
            Rule::Include { class, .. } => class.as_ref(),
            Rule::Exclude { .. } => None,
        }
    }

    /// What the rule says of a path that it matches, where this is its number.
    pub(crate) fn says(&self, number: usize) -> Bound
        ensures { result ≡ said_by number self.now }
    {
        match self {
            Rule::Include { .. } => Bound::ByRule(number),
            Rule::Exclude { .. } => Bound::Excluded,
        }
    }
}
