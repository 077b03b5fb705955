//! Pieces of a pattern held against elements, whatever these are cut from.

ghost use Rattle.std.specs.Prelude.{◌≡◌, ◌<◌, ◌≤◌, ℕ, Bool, List, [], ◌∷◌, length, IfSome, IfNone, false};
ghost use Rattle.path_patterns.specs.Pieces.{any_rest, is_matched};
ghost use Rattle.path_patterns.specs.Stops.{Goes, IsStopped};

/// How bytes are cut into pieces, which piece of a pattern is a run, and what the other pieces fit.
pub(crate) trait Cut {
    ghost pieces: { List ℕ → List (List ℕ) };

    ghost is_run: { List ℕ → Bool };

    ghost fits: { List ℕ → List ℕ → Bool };

    /// The first piece, and the bytes that the others are cut from.
    fn next(bytes: &[u8]) -> Option<(&[u8], &[u8])>
        ensures some { IfSome result (λ r. pieces bytes.now ≡ r.0.now ∷ pieces r.1.now) }
        ensures less { IfSome result (λ r. length r.1.now < length bytes.now) }
        ensures none { IfNone result (pieces bytes.now ≡ []) };

    /// Whether the piece matches zero or more elements.
    fn is_run(piece: &[u8]) -> bool
        ensures { result ≡ is_run piece.now };

    /// Whether a piece that is no run matches the element.
    fn fits(piece: &[u8], element: &[u8]) -> bool
        ensures { result ≡ fits piece.now element.now };
}

/// Goes along the pattern and the text while the pattern's pieces are no runs and fit. It gives what is left of both at a
/// run, or where both have ended; none where the text doesn't match.
fn go_along<'a, C: Cut>(pattern: &'a [u8], text: &'a [u8]) -> Option<(&'a [u8], &'a [u8])>
    ensures goes { IfSome result (λ r. Goes C.is_run C.fits (C.pieces pattern.now) (C.pieces text.now) (C.pieces r.0.now) (C.pieces r.1.now)) }
    ensures stopped { IfSome result (λ r. IsStopped C.is_run (C.pieces r.0.now) (C.pieces r.1.now)) }
    ensures less { IfSome result (λ r. (length r.0.now ≤ length pattern.now) × (length r.1.now ≤ length text.now)) }
    ensures apart { IfNone result (is_matched C.is_run C.fits (C.pieces pattern.now) (C.pieces text.now) ≡ false) }
{
    let mut pattern_left = pattern;
    let mut text_left = text;
    'along: while let Some((piece, behind)) = C::next(pattern_left) {
        if C::is_run(piece) {
            return Some((pattern_left, text_left));
        }
        let Some((element, rest)) = C::next(text_left) else {
            return None;
        };
        if !C::fits(piece, element) {
            return None;
        }
        pattern_left = behind;
        text_left = rest;
    }
    match C::next(text_left) {
        None => Some((pattern_left, text_left)),
        Some(_) => None,
    }
}

/// Whether the pattern matches the text, or what is left of it behind some elements.
///
/// Where the pattern's pieces up to its next run fit, the run may as well begin there: what follows is looked for in all
/// that is left.
fn is_behind_run<C: Cut>(pattern: &[u8], text: &[u8]) -> bool
    ensures { result ≡ any_rest (λ rest. is_matched C.is_run C.fits (C.pieces pattern.now) rest) (C.pieces text.now) }
{
    let mut pattern_left = pattern;
    let mut text_left = text;
    'places: loop {
        match go_along::<C>(pattern_left, text_left) {
            Some((run, rest)) => {
                let Some((_, behind)) = C::next(run) else {
                    return true;
                };
                pattern_left = behind;
                text_left = rest;
            }
            None => {
                let Some((_, rest)) = C::next(text_left) else {
                    return false;
                };
                text_left = rest;
            }
        }
    }
}

/// Whether the pattern matches the text.
pub(crate) fn is_matched<C: Cut>(pattern: &[u8], text: &[u8]) -> bool
    ensures { result ≡ is_matched C.is_run C.fits (C.pieces pattern.now) (C.pieces text.now) }
{
    let Some((run, rest)) = go_along::<C>(pattern, text) else {
        return false;
    };
    match C::next(run) {
        None => true,
        Some((_, behind)) => is_behind_run::<C>(behind, rest),
    }
}
