//! Patterns of paths, as the include-exclude lists of a client and the words of a restore have them.
//!
//! A pattern is split at its slashes into parts, and so is a path. A part `...` of a pattern matches zero or more parts
//! of the path; in another part `*` matches zero or more characters and `?` one.
//!
//! Matching takes no memory, and at most about as many steps as the pattern and the path have bytes, one times the
//! other, for the characters of each part and once more for the parts.
#![tactic(auto)]

mod character;
mod matcher;
mod part;
mod pattern;

pub use pattern::Pattern;
