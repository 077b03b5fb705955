// What the test of a copy means, as a law. It stands on a function that does nothing.
ghost use Rattle.std.specs.Prelude.{◌≡◌, ◌↔◌, ℕ, true, List};
ghost use Rattle.kinds.specs.declared.segment.Segment.{Segment};
ghost use Rattle.sha2.specs.Sha256.{sha256};
ghost use Rattle.volume_frames.specs.Frames.{Framed, bytes_of, bytes_len};
ghost use Rattle.copy_checks.specs.Copies.{is_there};

/// A copy stands in an image exactly where it is framed there, its segments have as many bytes as its object, and their data has the object's digest.
pub fn there_is_framed()
    ensures { (image : ℕ → List ℕ) (object size : ℕ) (digest : List ℕ) (segments : List Segment) →
        (is_there image object size digest segments ≡ true ↔ (Framed image object segments × (bytes_len segments ≡ size) × (digest ≡ sha256 (bytes_of image segments)))) }
{}
