// The numbers behind `restoredb` are read.
ghost use Rattle.std.specs.Prelude.{◌≡◌, map, codes};
ghost use Rattle.std.specs.Option.{option_map};
ghost use Rattle.clap.specs.Words.{first_value, found_of, matched_of, raw_values};
ghost use Rattle.kinds.specs.Answers.{AnswersBy};
ghost use Rattle.program_words.specs.Words.{all_of, as_wanted, day_of, file_of, files_of};
ghost use Rattle.program_words.specs.Program.{given};

use clap::ArgMatches;
use command_words::field;
use kinds::{Day, Refusal};
use std::alloc::Global;

/// What is to be restored.
#[derive(Drop)]
pub struct Wanted {
    /// The backup's file.
    pub file: u32,
    /// The day on which it is restored, which becomes the database's.
    pub day: Day,
    /// The files of the volumes that are passed over.
    pub skipped: Vec<u32>,
}

// The number of a file that the word is.
fn file(word: &str) -> Option<u32>
    ensures { result ≡ file_of word.now }
{
    match field::number(Some(word.as_bytes()), 4294967295) {
        Some(file) => Some(file as u32),
        None => None,
    }
}

// The numbers of files that all of these words are.
fn files(alloc: Global, words: &[&str]) -> Result<Option<Vec<u32>>, Refusal>
    ensures { AnswersBy (λ files. option_map (λ f. f.items) files) result (files_of (map (λ w. w.now) words.now)) }
{
    let mut files = Vec::new(alloc);
    'words: for word in words {
        match file(*word) {
            Some(file) => files.push(file)?,
            None => return Ok(None),
        }
    }
    Ok(Some(files))
}

// The three of them, where each is a number.
fn all(first: &str, second: &str, skipped: Option<Vec<u32>>) -> Option<Wanted>
    ensures { as_wanted result ≡ all_of (file_of first.now) (day_of second.now) (option_map (λ f. f.items) skipped) }
{
    let file = match file(first) {
        Some(file) => file,
        None => return None,
    };
    let day = match field::day(Some(second.as_bytes())) {
        Some(day) => day,
        None => return None,
    };
    match skipped {
        Some(skipped) => Some(Wanted { file, day, skipped }),
        None => None,
    }
}

// What the words ask that the parser hands on.
pub(crate) fn read_numbers(alloc: Global, words: &ArgMatches) -> Result<Option<Wanted>, Refusal>
    ensures { AnswersBy as_wanted result (given (first_value (found_of words.now) (codes "FILE")) (first_value (found_of words.now) (codes "DAY")) (option_map raw_values (matched_of (found_of words.now) (codes "FILES")))) }
{
    let first = match words.get_str("FILE") {
        Some(first) => first,
        None => return Ok(None),
    };
    let second = match words.get_str("DAY") {
        Some(second) => second,
        None => return Ok(None),
    };
    match words.get_strs("FILES") {
        Some(others) => Ok(all(first, second, files(alloc, others)?)),
        None => Ok(all(first, second, Some(Vec::new(alloc)))),
    }
}
