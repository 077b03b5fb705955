// What the definitions mean, as laws. Each stands on a function that does nothing.
ghost use Rattle.std.specs.Prelude.{◌≡◌, ◌≤◌, ℕ, List, [], ◌∷◌, true, false, None, Some};
ghost use Rattle.blocks.specs.Parts.{part};
ghost use Rattle.blocks.specs.Shapes.{Gathered, Placed, begun, block, comes_to, is_end, with_line};
ghost use Rattle.blocks.specs.Trees.{IsNamedBefore, in_use, names};

/// What is gathered line by line is the block that the lines are: it begins as all of them, each line that is taken leaves what it comes to with those that follow as it was, one that ends it is the last, and behind
/// the last line it is what was gathered.
pub fn lines_come_to_blocks()
    ensures begins { (lines : List (ℕ × List ℕ)) → comes_to begun lines ≡ block lines }
    ensures goes { (g : Gathered) (number : ℕ) (line : List ℕ) (lines : List (ℕ × List ℕ)) → is_end (part line) ≡ false → comes_to (with_line g number line) lines ≡ comes_to g ((number, line) ∷ lines) }
    ensures ends { (g : Gathered) (number : ℕ) (line : List ℕ) (lines : List (ℕ × List ℕ)) → is_end (part line) ≡ true → comes_to g ((number, line) ∷ lines) ≡ comes_to g [] }
    ensures lines { (g : Gathered) → (comes_to g []).lines ≡ g.lines }
{}

/// A tree is in use for a line of a block exactly where the line names it and a line of an earlier job does, too.
pub fn trees_are_the_first_jobs()
    ensures used { (lines : List Placed) (line : Placed) (tree : ℕ) → in_use lines line ≡ Some tree → (names tree line ≡ true) × IsNamedBefore lines line.job tree }
    ensures named { (lines : List (ℕ × List ℕ)) (line : Placed) (tree : ℕ) → names tree line ≡ true → IsNamedBefore (block lines).lines line.job tree → in_use (block lines).lines line ≡ Some tree }
{}
