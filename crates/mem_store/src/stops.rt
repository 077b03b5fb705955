// What a stop does to the files: pending calls are undone, and the chosen ones are done again.
ghost use Rattle.std.specs.Prelude.{◌≡◌, ◌≢◌, ℕ, ◌+◌, ◌-◌, ◌<◌, ◌≤◌, ◌/◌, ◌^◌, if◌then◌else◌, length, take, drop, [], replicate};
ghost use Rattle.mem_store.specs.Files.{content_of, room_of, reach};
ghost use Rattle.mem_store.specs.Entries.{undo, HasRoom};
ghost use Rattle.mem_store.specs.Stops.{has_sync, has_write, is_pending, is_write, is_sync, pending_writes, pending_next, synced, half_written, chosen, kept, kept_one, redone, stopped};

use crate::entry::{Entry, Kind};
use crate::files::Files;

impl Kind {
    fn is_sync(self) -> bool
        ensures { result ≡ is_sync self }
    {
        matches!(self, Kind::Sync)
    }

    fn is_write(self) -> bool
        ensures { result ≡ is_write self }
    {
        matches!(self, Kind::Write | Kind::FailedWrite)
    }
}

// A sync of the file is among the calls.
fn any_sync(calls: &[Entry], file: u32) -> bool
    ensures { result ≡ has_sync calls.now file }
{
    calls.iter().any(|e| e.kind.is_sync() && e.file == file)
}

// A write of the file is among the calls.
fn any_write(calls: &[Entry], file: u32) -> bool
    ensures { result ≡ has_write calls.now file }
{
    calls.iter().any(|e| e.kind.is_write() && e.file == file)
}

// How many writes of the file are pending after one more call.
fn pending_after(count: usize, e: &Entry, file: u32) -> usize
    requires { count < 2 ^ 63 }
    ensures { result ≡ pending_next e.now file count }
{
    if e.file != file {
        return count;
    }
    match e.kind {
        Kind::Write | Kind::FailedWrite => count + 1,
        Kind::Cut => count,
        Kind::Sync => 0,
    }
}

// How many writes of the file are pending after the calls.
fn count_pending(calls: &[Entry], file: u32) -> usize
    ensures { result ≡ pending_writes calls.now file }
{
    let mut count = 0;
    'calls: for e in calls {
        count = pending_after(count, e, file);
    }
    count
}

// Undoes a call, where it is pending.
fn undo_one(files: &mut Files, e: &Entry, newer: &[Entry])
    requires { reach e.now.at e.now.old.items ≤ room_of files.old e.now.file }
    ensures step { (file : ℕ) → content_of files.new file ≡ (if is_pending e.now newer.now file then undo e.now (content_of files.old file) else content_of files.old file) }
    ensures room { (file : ℕ) → room_of files.old file ≤ room_of files.new file }
{
    if e.kind.is_sync() || any_sync(newer, e.file) {
        return;
    }
    files.write(e.file, e.at, &e.old);
    files.cut(e.file, e.old_len);
}

// Undoes the pending calls, the newest first.
fn undo_all(files: &mut Files, calls: &[Entry])
    requires { HasRoom files.old calls.now }
    ensures synced { (file : ℕ) → content_of files.new file ≡ synced calls.now file (content_of files.old file) }
    ensures room { (file : ℕ) → room_of files.old file ≤ room_of files.new file }
{
    let mut k = calls.len();
    'back: while k > 0 {
        k -= 1;
        undo_one(files, &calls[k], &calls[k + 1..]);
    }
}

// Writes the first half of a piece, and 0xA5 in place of its other bytes.
fn write_half(files: &mut Files, file: u32, at: usize, piece: &[u8])
    requires { reach at piece.now ≤ room_of files.old file }
    ensures file { content_of files.new file ≡ half_written at piece.now (content_of files.old file) }
    ensures others { (other : ℕ) → other ≢ file → content_of files.new other ≡ content_of files.old other }
    ensures room { (other : ℕ) → room_of files.old other ≤ room_of files.new other }
{
    let half = piece.len() / 2;
    files.write(file, at, &piece[..half]);
    if half < piece.len() {
        files.write_copies(file, at + half, piece.len() - half, 0xA5);
    }
}

// Does a pending write again as the choice says.
fn choose(files: &mut Files, choice: u64, number: usize, is_last: bool, e: &Entry)
    requires { reach e.now.at e.now.bytes.items ≤ room_of files.old e.now.file }
    ensures file { content_of files.new e.now.file ≡ chosen choice number is_last e.now.at e.now.bytes.items (content_of files.old e.now.file) }
    ensures others { (other : ℕ) → other ≢ e.now.file → content_of files.new other ≡ content_of files.old other }
    ensures room { (other : ℕ) → room_of files.old other ≤ room_of files.new other }
{
    if is_last && (choice >> 63) % 2 == 1 {
        write_half(files, e.file, e.at, &e.bytes);
    } else if (choice >> ((number % 63) as u32)) % 2 == 1 {
        files.write(e.file, e.at, &e.bytes);
    }
}

// Does a call again, where it is pending and the choice keeps it.
fn redo_one(files: &mut Files, choice: u64, older: &[Entry], e: &Entry, newer: &[Entry])
    requires { reach e.now.at e.now.bytes.items ≤ room_of files.old e.now.file }
    ensures step { (file : ℕ) → content_of files.new file ≡ kept_one choice older.now e.now newer.now file (content_of files.old file) }
    ensures room { (file : ℕ) → room_of files.old file ≤ room_of files.new file }
{
    if e.kind.is_sync() || any_sync(newer, e.file) {
        return;
    }
    if e.kind.is_write() {
        let number = count_pending(older, e.file);
        let is_last = !any_write(newer, e.file);
        choose(files, choice, number, is_last, e);
    } else {
        files.cut(e.file, e.at);
    }
}

// Does the chosen pending calls again, the oldest first.
fn redo_all(files: &mut Files, choice: u64, calls: &[Entry])
    requires { HasRoom files.old calls.now }
    ensures redone { (file : ℕ) → content_of files.new file ≡ redone choice [] calls.now file (content_of files.old file) }
    ensures room { (file : ℕ) → room_of files.old file ≤ room_of files.new file }
{
    'forth: for k in 0..calls.len() {
        redo_one(files, choice, &calls[..k], &calls[k], &calls[k + 1..]);
    }
}

// Leaves of each file what the choice says.
pub(crate) fn stop_all(files: &mut Files, choice: u64, calls: &[Entry])
    requires { HasRoom files.old calls.now }
    ensures stopped { (file : ℕ) → content_of files.new file ≡ stopped choice calls.now file (content_of files.old file) }
{
    undo_all(files, calls);
    redo_all(files, choice, calls);
}
