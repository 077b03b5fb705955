// The words are read by the parser, and what they ask is told.
ghost use Rattle.std.specs.Prelude.{◌≡◌, IfErr, IfOk, List, codes, map, string_bytes, true, ℕ};
ghost use Rattle.std.specs.List.{list_all};
ghost use Rattle.std.specs.Str.{bytes_eq};
ghost use Rattle.clap.specs.Words.{found_of, rows_of, subcommand_rows_of};
ghost use Rattle.kinds.specs.declared.refusal.Refusal.TheVariants.{Memory};
ghost use Rattle.program_words.specs.Program.{IsGiven, IsTaken, is_plain};
ghost use Rattle.program_words.specs.Words.{Reads};

use crate::numbers::{Wanted, read_numbers};
use crate::program::program;
use clap::ArgMatches;
use clap::error::ErrorKind;
use kinds::Refusal;
use std::alloc::Global;

/// What the program's words ask.
#[derive(Drop)]
pub enum Asked {
    /// A new database.
    Format,
    /// A script over the database that is there.
    Run,
    /// A script over a new database.
    Fresh,
    /// That a database is restored from a backup.
    Restore(Wanted),
}

// Whether the name is this one.
fn is_name(name: &str, word: &str) -> bool
    ensures { result ≡ bytes_eq name.now word.now }
{
    name == word
}

// What `restoredb` asks.
fn restoring(alloc: Global, words: &ArgMatches) -> Result<Option<Asked>, Refusal>
    ensures read { IfOk result (λ asked. (given : List (List ℕ)) → IsGiven given (codes "restoredb") (rows_of (found_of words.now)) → Reads asked given) }
    ensures memory { IfErr result (λ e. e ≡ Memory) }
{
    match read_numbers(alloc, words) {
        Ok(Some(wanted)) => Ok(Some(Asked::Restore(wanted))),
        Ok(None) => Ok(None),
        Err(refusal) => Err(refusal),
    }
}

// What the command of this name asks.
fn named(alloc: Global, name: &str, words: &ArgMatches) -> Result<Option<Asked>, Refusal>
    ensures read { IfOk result (λ asked. (given : List (List ℕ)) → IsGiven given name.now (rows_of (found_of words.now)) → Reads asked given) }
    ensures memory { IfErr result (λ e. e ≡ Memory) }
{
    if is_name(name, "format") {
        return Ok(Some(Asked::Format));
    }
    if is_name(name, "run") {
        return Ok(Some(Asked::Run));
    }
    if is_name(name, "fresh") {
        return Ok(Some(Asked::Fresh));
    }
    if is_name(name, "restoredb") {
        return restoring(alloc, words);
    }
    Ok(None)
}

// What the command asks that the parser met.
fn command(alloc: Global, matches: &ArgMatches) -> Result<Option<Asked>, Refusal>
    ensures read { IfOk result (λ asked. (given : List (List ℕ)) → IsTaken given (subcommand_rows_of matches.now) → Reads asked given) }
    ensures memory { IfErr result (λ e. e ≡ Memory) }
{
    match matches.subcommand() {
        Some((name, words)) => named(alloc, name, words),
        None => Ok(None),
    }
}

// Whether the word isn't empty and begins with no hyphen.
fn is_plain(word: &String) -> bool
    ensures { result ≡ is_plain (string_bytes word.now) }
{
    match word.as_bytes().split_first() {
        Some((first, _)) => *first != b'-',
        None => false,
    }
}

// Whether no word is empty or begins with a hyphen.
fn are_plain(words: &[String]) -> bool
    ensures { result ≡ list_all is_plain (map string_bytes words.now) }
{
    'words: for word in words {
        if !is_plain(word) {
            return false;
        }
    }
    true
}

// What words ask that the parser may read.
fn parsed(alloc: Global, words: &[String]) -> Result<Option<Asked>, Refusal>
    requires plain { list_all is_plain (map string_bytes words.now) ≡ true }
    ensures read { IfOk result (λ asked. Reads asked (map string_bytes words.now)) }
    ensures memory { IfErr result (λ e. e ≡ Memory) }
{
    let parser = program(alloc)?;
    match parser.try_get_matches_from(words) {
        Ok(matches) => command(alloc, &matches),
        Err(error) => match error.kind() {
            ErrorKind::OutOfMemory => Err(Refusal::Memory),
            _ => Ok(None),
        },
    }
}

/// What the program's words ask: `format`, `run`, `fresh`, or `restoredb`, the number of a file, a day and any numbers of files, each of 1 to 10 decimal digits; none where they are others. The parser of
/// command lines of the crate `clap` reads them; words of which one is empty or begins with a hyphen aren't handed to it, and are no command. Refused only for want of memory.
pub fn read_words(alloc: Global, words: &[String]) -> Result<Option<Asked>, Refusal>
    // What was read is what the words ask, and nothing where they ask nothing.
    ensures read { IfOk result (λ asked. Reads asked (map string_bytes words.now)) }
    ensures memory { IfErr result (λ e. e ≡ Memory) }
{
    if are_plain(words) {
        return parsed(alloc, words);
    }
    Ok(None)
}
