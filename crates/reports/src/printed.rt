// What is printed of an answer to a query.
ghost use Rattle.std.specs.Prelude.{◌≡◌};
ghost use Rattle.kinds.specs.Answers.{AnswersBy};
ghost use Rattle.inventory_work.specs.Lists.{Writes};
ghost use Rattle.reports.specs.Printed.{printed_rows, row_count};

use crate::rows::put_rows;
use inventory_answers::Rows;
use kinds::Refusal;
use std::alloc::Global;

fn put_printed(text: &mut Vec<u8>, line: u32, rows: &Rows) -> Result<(), Refusal>
    ensures { Writes result text.old.items text.new.items (printed_rows line rows.now) }
{
    match rows {
        Rows::Domains(rows) => put_rows(text, line, rows.as_slice()),
        Rows::Sets(rows) => put_rows(text, line, rows.as_slice()),
        Rows::Classes(rows) => put_rows(text, line, rows.as_slice()),
        Rows::Groups(rows) => put_rows(text, line, rows.as_slice()),
        Rows::Nodes(rows) => put_rows(text, line, rows.as_slice()),
        Rows::Filespaces(rows) => put_rows(text, line, rows.as_slice()),
        Rows::Devices(rows) => put_rows(text, line, rows.as_slice()),
        Rows::Pools(rows) => put_rows(text, line, rows.as_slice()),
        Rows::Volumes(rows) => put_rows(text, line, rows.as_slice()),
        Rows::Content(rows) => put_rows(text, line, rows.as_slice()),
        Rows::History(rows) => put_rows(text, line, rows.as_slice()),
        Rows::Versions(rows) => put_rows(text, line, rows.as_slice()),
        Rows::Held(rows) => put_rows(text, line, rows.as_slice()),
        Rows::Today
        | Rows::Lookup(_)
        | Rows::Rules(_)
        | Rows::OnPool(_)
        | Rows::OnVolume(_)
        | Rows::Missing(_)
        | Rows::Eligible(_)
        | Rows::Unretained(_)
        | Rows::Emptied(_)
        | Rows::LogBytes(_)
        | Rows::Validated(_) => Ok(()),
    }
}

/// The rows of a query's answer, in their order, each as a line with the number of the script's line that asked and with LF. The line that says
/// how many rows there are isn't among them. Nothing is printed of what only the server's own processes ask, or of the day. Its one refusal is
/// want of memory.
pub fn print_rows(alloc: Global, line: u32, rows: &Rows) -> Result<Vec<u8>, Refusal>
    ensures { AnswersBy (λ text. text.items) result (printed_rows line rows.now) }
{
    let mut text = Vec::new(alloc);
    put_printed(&mut text, line, rows)?;
    Ok(text)
}

/// How many rows are printed of a query's answer, as its last line says.
pub fn row_count(rows: &Rows) -> u64
    ensures { result ≡ row_count rows.now }
{
    match rows {
        Rows::Domains(rows) => rows.as_slice().len() as u64,
        Rows::Sets(rows) => rows.as_slice().len() as u64,
        Rows::Classes(rows) => rows.as_slice().len() as u64,
        Rows::Groups(rows) => rows.as_slice().len() as u64,
        Rows::Nodes(rows) => rows.as_slice().len() as u64,
        Rows::Filespaces(rows) => rows.as_slice().len() as u64,
        Rows::Devices(rows) => rows.as_slice().len() as u64,
        Rows::Pools(rows) => rows.as_slice().len() as u64,
        Rows::Volumes(rows) => rows.as_slice().len() as u64,
        Rows::Content(rows) => rows.as_slice().len() as u64,
        Rows::History(rows) => rows.as_slice().len() as u64,
        Rows::Versions(rows) => rows.as_slice().len() as u64,
        Rows::Held(rows) => rows.as_slice().len() as u64,
        Rows::Today
        | Rows::Lookup(_)
        | Rows::Rules(_)
        | Rows::OnPool(_)
        | Rows::OnVolume(_)
        | Rows::Missing(_)
        | Rows::Eligible(_)
        | Rows::Unretained(_)
        | Rows::Emptied(_)
        | Rows::LogBytes(_)
        | Rows::Validated(_) => 0,
    }
}
