//! The values that every crate of the server speaks of: names, paths, days, rules, segments, changes and refusals,
//! and the words in which contracts say what a call answers.
#![tactic(auto)]

mod change;
mod day;
mod forms;
mod least;
mod name;
mod path;
mod pool;
mod refusal;
mod rule;
mod segment;
mod size;
mod text;

pub use change::{DefineOrDelete, ObjectChange, PolicyChange, PoolChange, Verb};
pub use day::{Day, Days};
pub use forms::{Fitting, all_fit};
pub use least::lesser;
pub use name::{Name, NameOf, NodeName};
pub use path::{FilespaceName, Path, PathOf};
pub use pool::{Access, Capacity, PoolKind, PoolRule, PoolSettings, SizeLimit};
pub use refusal::{By, Holder, OpenRefused, Refusal, bad_value, foremost, sooner_of, unless};
pub use rule::{ArchiveGroup, ArchiveRule, BackupRule, CopyGroup, Limit, RuleFound, Still};
pub use segment::{Digest, Segment, Segments};
pub use size::ObjectSize;
pub use text::Text;
