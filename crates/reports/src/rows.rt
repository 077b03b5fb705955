// The rows of an answer, one after another.
ghost use Rattle.std.specs.Prelude.{◌≡◌, ◌++◌, ℕ, List, codes, decimal};
ghost use Rattle.inventory_work.specs.Lists.{Writes};
ghost use Rattle.reports.specs.Pieces.{numbered, rows_of};

use crate::pieces::{put_number, put_words};
use kinds::Refusal;

/// A row of a query's answer.
pub(crate) trait Row {
    /// What is printed of it, without the number of the script's line and without LF.
    ghost printed: { Self → List ℕ };

    /// Adds it to a text.
    fn write(&self, text: &mut Vec<u8>) -> Result<(), Refusal>
        ensures { Writes result text.old.items text.new.items (printed self.now) };
}

fn put_row<T: Row>(text: &mut Vec<u8>, line: u32, row: &T) -> Result<(), Refusal>
    ensures { Writes result text.old.items text.new.items (numbered line (T.printed row.now)) }
{
    put_number(text, b"", u64::from(line))?;
    put_words(text, b" ")?;
    row.write(text)?;
    put_words(text, b"\n")?;
    Ok(())
}

/// Adds the lines of some rows to a text, for a script's line with this number.
pub(crate) fn put_rows<T: Row>(text: &mut Vec<u8>, line: u32, rows: &[T]) -> Result<(), Refusal>
    ensures { Writes result text.old.items text.new.items (rows_of T.printed line rows.now) }
{
    'rows: for row in rows {
        put_row(text, line, row)?;
    }
    Ok(())
}
