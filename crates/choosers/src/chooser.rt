//! Which of the copies that may be moved is next.
ghost use Rattle.std.specs.Prelude.{◌≡◌, ◌<◌, ℕ, List, length};
ghost use Rattle.choosers.specs.declared.candidate.Candidate.{Candidate};

use crate::candidate::Candidate;

/// Who chooses among copies that may be moved: a closure that may be called on every list that isn't empty, and answers a place in it.
pub trait Chooser {
    /// The places in a list that it may answer.
    ghost picks: { Self → List Candidate → ℕ → Type 0 };

    /// The place of the one that is chosen.
    fn pick(&self, list: &[Candidate]) -> usize
        requires { 0 < length list.now }
        ensures picked { picks self.now list.now result }
        ensures within { result < length list.now };
}

/// The first of them is chosen.
#[derive(Clone, Copy, Debug, PartialEq, Eq)]
pub struct First;

impl Chooser for First {
    ghost picks = { λ first list place. place ≡ 0 };

    fn pick(&self, list: &[Candidate]) -> usize {
        let _ = list;
        0
    }
}
