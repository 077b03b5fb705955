//! What steps are answered, in words.
use inventory_answers::{Answer, HeldLine, Rows};
use inventory_work::{CopyLine, Listed, UnretainedLine};
use kinds::{Digest, Refusal};
use std::alloc::{AllocError, Global};
use steps::{ImageReply, Reply};

/// Adds the hexadecimal digits of a digest.
pub fn put_digest(out: &mut String, digest: &Digest) -> Result<(), AllocError> {
    for byte in digest.0 {
        write!(out, "{byte:02x}")?;
    }
    Ok(())
}

/// Two digests that differ are shown in hexadecimal digits.
fn put_digests(out: &mut String, kept: &Digest, given: &Digest) -> Result<(), AllocError> {
    out.push_str("DigestDiffers kept=")?;
    put_digest(out, kept)?;
    out.push_str(" given=")?;
    put_digest(out, given)
}

/// Why something was refused; digests in hexadecimal digits.
pub fn refusal(alloc: Global, refusal: &Refusal) -> Result<String, AllocError> {
    match refusal {
        Refusal::DigestDiffers { kept, given } => {
            let mut out = String::new(alloc);
            put_digests(&mut out, kept, given)?;
            Ok(out)
        }
        other => format!(in alloc; "{other:?}"),
    }
}

/// A word and a number, or why there is none.
pub fn numbered(
    alloc: Global,
    word: &str,
    answer: &Result<u64, Refusal>,
) -> Result<String, AllocError> {
    match answer {
        Ok(number) => format!(in alloc; "{word} {number}"),
        Err(e) => refusal(alloc, e),
    }
}

/// What a step answered that answers nothing more.
pub fn done(alloc: Global, answer: &Result<(), Refusal>) -> Result<String, AllocError> {
    match answer {
        Ok(()) => String::from_str(alloc, "done"),
        Err(e) => refusal(alloc, e),
    }
}

/// How many bytes there are, and the first eight of them.
fn shown(alloc: Global, bytes: &[u8]) -> Result<String, AllocError> {
    let count = bytes.len();
    let mut out = format!(in alloc; "{count} bytes")?;
    if count > 0 {
        out.push(' ')?;
    }
    for byte in bytes.iter().take(8) {
        let byte = *byte;
        write!(out, "{byte:02x}")?;
    }
    Ok(out)
}

fn read(alloc: Global, answer: &Result<Listed<u8>, Refusal>) -> Result<String, AllocError> {
    match answer {
        Ok(bytes) => shown(alloc, bytes.as_slice()),
        Err(e) => refusal(alloc, e),
    }
}

/// What an image came to.
fn image(alloc: Global, answer: &Result<ImageReply, Refusal>) -> Result<String, AllocError> {
    match answer {
        Ok(reply) => format!(in alloc; "{reply:?}"),
        Err(e) => refusal(alloc, e),
    }
}

fn put_path(out: &mut String, path: &[u8]) -> Result<(), AllocError> {
    for byte in path {
        out.push(char::from(*byte))?;
    }
    Ok(())
}

fn put_unretained(out: &mut String, lines: &Listed<UnretainedLine>) -> Result<(), AllocError> {
    for line in lines.as_slice() {
        let filespace = line.filespace;
        let object = line.object;
        write!(out, "\n{filespace} ")?;
        put_path(out, line.path.as_bytes())?;
        write!(out, " object={object}")?;
    }
    Ok(())
}

fn put_copies(out: &mut String, lines: &Listed<CopyLine>) -> Result<(), AllocError> {
    for line in lines.as_slice() {
        let object = line.object;
        let pool = line.pool;
        let placed = line.placed;
        write!(out, "\nobject={object} pool={pool} placed={placed}")?;
    }
    Ok(())
}

fn put_held(out: &mut String, lines: &Listed<HeldLine>) -> Result<(), AllocError> {
    for line in lines.as_slice() {
        let object = line.object;
        let owed = line.owed;
        out.push('\n')?;
        put_path(out, line.path.as_bytes())?;
        write!(out, " object={object} owed={owed}")?;
    }
    Ok(())
}

fn put_files(out: &mut String, files: &Listed<u32>) -> Result<(), AllocError> {
    for file in files.as_slice() {
        write!(out, "\nfile {file}")?;
    }
    Ok(())
}

fn put_rows(out: &mut String, rows: &Rows) -> Result<(), AllocError> {
    match rows {
        Rows::Unretained(lines) => put_unretained(out, lines),
        Rows::OnPool(lines) => put_copies(out, lines),
        Rows::Held(lines) => put_held(out, lines),
        Rows::Emptied(files) => put_files(out, files),
        Rows::LogBytes(bytes) => write!(out, ", {bytes} bytes"),
        _ => Ok(()),
    }
}

fn rows(alloc: Global, answer: &Answer) -> Result<String, AllocError> {
    let n = answer.n;
    let day = answer.today.number();
    let mut out = format!(in alloc; "number {n}, day {day}")?;
    put_rows(&mut out, &answer.rows)?;
    Ok(out)
}

/// What a query was answered, in a line, and behind it a line for each row.
fn asked(alloc: Global, answer: &Result<Answer, Refusal>) -> Result<String, AllocError> {
    match answer {
        Ok(answer) => rows(alloc, answer),
        Err(e) => refusal(alloc, e),
    }
}

/// What a step was answered.
pub fn text(alloc: Global, reply: &Reply) -> Result<String, AllocError> {
    match reply {
        Reply::OpenNew(answer) | Reply::OpenCopy(answer) => numbered(alloc, "ticket", answer),
        Reply::WritePiece(answer) | Reply::CopyPiece(answer) => numbered(alloc, "bytes", answer),
        Reply::Commit(answer) | Reply::Reuse(answer) | Reply::Force(answer) => {
            numbered(alloc, "number", answer)
        }
        Reply::Seal(answer) | Reply::DropTicket(answer) => done(alloc, answer),
        Reply::ReadPiece(answer) => read(alloc, answer),
        Reply::Ask(answer) => asked(alloc, answer),
        Reply::Image(answer) => image(alloc, answer),
    }
}

/// The number of the last transaction that the reply says is durable.
pub fn acknowledged(reply: &Reply) -> Option<u64> {
    match reply {
        Reply::Force(Ok(number)) | Reply::Reuse(Ok(number)) => Some(*number),
        Reply::Image(Ok(ImageReply::Begun { seq, .. } | ImageReply::Done { seq })) => Some(*seq),
        _ => None,
    }
}
