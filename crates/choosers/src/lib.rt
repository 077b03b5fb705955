//! What an administrator chooses: which files a client sends, and under which management class, by include-exclude lists; and which copy is moved next, by a stored closure.
//!
//! The rules stand in a list, and the last rule whose pattern matches a path decides. An INCLUDE rule binds the path to
//! its class, or to the default class where it names none or one that the node's active policy set doesn't have; an EXCLUDE
//! rule leaves the path out.
#![tactic(auto)]

mod binder;
mod candidate;
mod chooser;
mod classes;
mod matching;
mod rule;
mod rule_text;

pub use binder::Binder;
pub use candidate::Candidate;
pub use chooser::{Chooser, First};
pub use classes::Classes;
pub use matching::match_rules;
pub use path_patterns::Pattern;
pub use rule::{Bound, Rule};
pub use rule_text::read_rules;
