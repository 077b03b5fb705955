//! The answer to a query, in words.
use crate::words::Row;
use crate::work_rows::{put_found, put_rules};
use inventory_answers::{Answer, Rows};
use inventory_work::Listed;
use kinds::Refusal;
use std::alloc::{AllocError, Global};

/// Puts each row on a line of its own.
fn put_all<T: Row>(out: &mut String, lines: &Listed<T>) -> Result<(), AllocError> {
    for line in lines.as_slice() {
        out.push('\n')?;
        line.put(out)?;
    }
    Ok(())
}

/// Puts numbers, a blank before each.
fn put_files(out: &mut String, files: &Listed<u32>) -> Result<(), AllocError> {
    out.push_str(", files")?;
    for file in files.as_slice() {
        write!(out, " {file}")?;
    }
    Ok(())
}

fn put_count(out: &mut String, bytes: &u64) -> Result<(), AllocError> {
    write!(out, ", {bytes} bytes")
}

fn put_refused(out: &mut String, refused: &Option<Refusal>) -> Result<(), AllocError> {
    let refused = *refused;
    write!(out, ", refused={refused:?}")
}

/// Puts the rows of the queries of the server's own processes and of clients' sessions.
fn put_work(out: &mut String, rows: &Rows) -> Result<(), AllocError> {
    match rows {
        Rows::Lookup(found) => put_found(out, found),
        Rows::Rules(rules) => put_rules(out, rules),
        Rows::OnPool(lines) => put_all(out, lines),
        Rows::OnVolume(lines) => put_all(out, lines),
        Rows::Missing(lines) => put_all(out, lines),
        Rows::Eligible(files) => put_files(out, files),
        Rows::Unretained(lines) => put_all(out, lines),
        Rows::Emptied(files) => put_files(out, files),
        Rows::LogBytes(bytes) => put_count(out, bytes),
        Rows::Validated(refused) => put_refused(out, refused),
        _ => Ok(()),
    }
}

/// Puts the rows of pools, volumes and database backups.
fn put_stores(out: &mut String, rows: &Rows) -> Result<(), AllocError> {
    match rows {
        Rows::Devices(lines) => put_all(out, lines),
        Rows::Pools(lines) => put_all(out, lines),
        Rows::Volumes(lines) => put_all(out, lines),
        Rows::Content(lines) => put_all(out, lines),
        Rows::History(lines) => put_all(out, lines),
        rows => put_work(out, rows),
    }
}

fn put_rows(out: &mut String, rows: &Rows) -> Result<(), AllocError> {
    match rows {
        Rows::Domains(lines) => put_all(out, lines),
        Rows::Sets(lines) => put_all(out, lines),
        Rows::Classes(lines) => put_all(out, lines),
        Rows::Groups(lines) => put_all(out, lines),
        Rows::Nodes(lines) => put_all(out, lines),
        Rows::Filespaces(lines) => put_all(out, lines),
        Rows::Versions(lines) => put_all(out, lines),
        Rows::Held(lines) => put_all(out, lines),
        rows => put_stores(out, rows),
    }
}

/// The number of the last transaction and the day, and each row on a line of its own.
pub fn text(alloc: Global, answer: &Answer) -> Result<String, AllocError> {
    let n = answer.n;
    let day = answer.today.number();
    let mut out = format!(in alloc; "number {n}, day {day}")?;
    put_rows(&mut out, &answer.rows)?;
    Ok(out)
}
