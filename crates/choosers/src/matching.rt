ghost use Rattle.std.specs.Prelude.{◌≡◌};
ghost use Rattle.choosers.specs.Rules.{bound_of};

use crate::rule::{Bound, Rule};

/// How the rules bind a path: the last rule whose pattern matches it decides. It takes no memory.
pub fn match_rules(rules: &[Rule], path: &[u8]) -> Bound
    ensures { result ≡ bound_of rules.now path.now }
{
    let mut left = rules;
    'rules: while let Some((rule, front)) = left.split_last() {
        if rule.pattern().matches(path) {
            return rule.says(front.len());
        }
        left = front;
    }
    Bound::Default
}
