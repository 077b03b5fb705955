ghost use Rattle.std.specs.Prelude.{◌≡◌, ◌<◌, ◌≤◌, ◌==◌, ◌^◌, ℕ, map, length, unwrap_or, if◌then◌else◌, [], Some, None, IfSome, IsSome, IsTrue};
ghost use Rattle.std.specs.Str.{str_to_ascii_uppercase};
ghost use Rattle.std.specs.Option.{ForSome, option_copied};
ghost use Rattle.kinds.specs.Answers.{AnswersBy};
ghost use Rattle.command_words.specs.Fields.{name_of, name_if, path_of, text_of, description_if, description_of, at_most, number_of, size_of, IsSpelled, limit_at, limit_spelled, limit_of, size_limit_at, size_limit_spelled, size_limit_of, capacity_of, word_of};
ghost use Rattle.command_words.specs.Values.{decimal, size, fits};
ghost use Rattle.command_words.specs.Fit.{is_one_of};

use crate::choice::choose;
use crate::text::Text;
use crate::value::{Kind, decimal, folds_to_name, is_no_limit, is_path, size};
use kinds::{Capacity, Day, Days, FilespaceName, Limit, Name, NodeName, Path, Refusal, SizeLimit};
use std::alloc::Global;

/// A name; STANDARD where none was given.
pub fn name(alloc: Global, text: Option<&[u8]>) -> Result<Name, Refusal>
    ensures value { AnswersBy (λ n. n) result (name_of 30 (option_copied text.entry)) }

    // A text that is a name is read with its letters in upper case.
    ensures fitting { ForSome (option_copied text.entry) (λ t. IsTrue (fits Kind.Name t) → AnswersBy (λ n. n) result (str_to_ascii_uppercase t)) }
{
    match text {
        Some(text) => {
            if folds_to_name(text, 30) {
                Name::read(alloc, text, 30)
            } else {
                Name::read(alloc, b"STANDARD", 30)
            }
        }
        None => Name::read(alloc, b"STANDARD", 30),
    }
}

/// The name of a node; STANDARD where none was given.
pub fn node_name(alloc: Global, text: Option<&[u8]>) -> Result<NodeName, Refusal>
    ensures value { AnswersBy (λ n. n) result (name_of 64 (option_copied text.entry)) }

    // A text that is a node's name is read with its letters in upper case.
    ensures fitting { ForSome (option_copied text.entry) (λ t. IsTrue (fits Kind.NodeName t) → AnswersBy (λ n. n) result (str_to_ascii_uppercase t)) }
{
    match text {
        Some(text) => {
            if folds_to_name(text, 64) {
                NodeName::read(alloc, text, 64)
            } else {
                NodeName::read(alloc, b"STANDARD", 64)
            }
        }
        None => NodeName::read(alloc, b"STANDARD", 64),
    }
}

/// The name of a node that may be missing.
pub fn node_name_if(alloc: Global, text: Option<&[u8]>) -> Result<Option<NodeName>, Refusal>
    ensures value { AnswersBy (λ n. n) result (name_if 64 (option_copied text.entry)) }

    // A text that is a node's name is read with its letters in upper case.
    ensures fitting { ForSome (option_copied text.entry) (λ t. IsTrue (fits Kind.NodeName t) → AnswersBy (λ n. n) result (Some (str_to_ascii_uppercase t))) }
{
    match text {
        Some(text) => {
            if folds_to_name(text, 64) {
                let name = NodeName::read(alloc, text, 64)?;
                Ok(Some(name))
            } else {
                Ok(None)
            }
        }
        None => Ok(None),
    }
}

/// A name that may be missing.
pub fn name_if(alloc: Global, text: Option<&[u8]>) -> Result<Option<Name>, Refusal>
    ensures value { AnswersBy (λ n. n) result (name_if 30 (option_copied text.entry)) }

    // A text that is a name is read with its letters in upper case; an empty one is none.
    ensures fitting { ForSome (option_copied text.entry) (λ t. IsTrue (fits Kind.Name t) → AnswersBy (λ n. n) result (Some (str_to_ascii_uppercase t))) }
    ensures fitting_or_none { ForSome (option_copied text.entry) (λ t. IsTrue (fits Kind.NameOrNone t) → AnswersBy (λ n. n) result (if length t == 0 then None else Some (str_to_ascii_uppercase t))) }
{
    match text {
        Some(text) => {
            if folds_to_name(text, 30) {
                let name = Name::read(alloc, text, 30)?;
                Ok(Some(name))
            } else {
                Ok(None)
            }
        }
        None => Ok(None),
    }
}

/// The path of a client file; the shortest one where none was given.
pub fn path(alloc: Global, text: Option<&[u8]>) -> Result<Path, Refusal>
    ensures value { AnswersBy (λ p. p) result (path_of 1024 (option_copied text.entry)) }

    // A text that is a path is read as it stands.
    ensures fitting { ForSome (option_copied text.entry) (λ t. IsTrue (fits Kind.Path t) → AnswersBy (λ p. p) result t) }
{
    match text {
        Some(text) => {
            if is_path(text, 1024) {
                Path::read(alloc, text)
            } else {
                Path::read(alloc, b"/")
            }
        }
        None => Path::read(alloc, b"/"),
    }
}

/// The name of a filespace; the shortest one where none was given.
pub fn filespace(alloc: Global, text: Option<&[u8]>) -> Result<FilespaceName, Refusal>
    ensures value { AnswersBy (λ p. p) result (path_of 64 (option_copied text.entry)) }

    // A text that is a filespace's name is read as it stands.
    ensures fitting { ForSome (option_copied text.entry) (λ t. IsTrue (fits Kind.FilespaceName t) → AnswersBy (λ p. p) result t) }
{
    match text {
        Some(text) => {
            if is_path(text, 64) {
                FilespaceName::read(alloc, text)
            } else {
                FilespaceName::read(alloc, b"/")
            }
        }
        None => FilespaceName::read(alloc, b"/"),
    }
}

/// Any text; empty where none was given.
pub fn text(alloc: Global, text: Option<&[u8]>) -> Result<Text, Refusal>
    ensures { AnswersBy (λ t. t) result (text_of (option_copied text.entry)) }
{
    match text {
        Some(text) => {
            let bytes = Vec::from_slice(alloc, text)?;
            Ok(Text::new(bytes))
        }
        None => Ok(Text::new(Vec::new(alloc))),
    }
}

/// A text that may be missing.
pub fn text_if(alloc: Global, text: Option<&[u8]>) -> Result<Option<Text>, Refusal>
    ensures { AnswersBy (λ t. t) result (option_copied text.entry) }
{
    match text {
        Some(text) => {
            let bytes = Vec::from_slice(alloc, text)?;
            Ok(Some(Text::new(bytes)))
        }
        None => Ok(None),
    }
}

/// A description that may be missing.
pub fn description_if(alloc: Global, text: Option<&[u8]>) -> Result<Option<kinds::Text>, Refusal>
    ensures value { AnswersBy (λ t. t) result (description_if (option_copied text.entry)) }

    // A text that is a description is read as it stands.
    ensures fitting { ForSome (option_copied text.entry) (λ t. IsTrue (fits Kind.Description t) → AnswersBy (λ d. d) result (Some t)) }
{
    match text {
        Some(text) => {
            let bytes = Vec::from_slice(alloc, text)?;
            Ok(kinds::Text::from_bytes(bytes))
        }
        None => Ok(None),
    }
}

fn no_description(alloc: Global) -> kinds::Text
    ensures { result ≡ [] }
{
    kinds::Text::from_bytes(Vec::new(alloc)).unwrap()
}

/// A description; empty where none was given.
pub fn description(alloc: Global, text: Option<&[u8]>) -> Result<kinds::Text, Refusal>
    ensures value { AnswersBy (λ t. t) result (description_of (option_copied text.entry)) }

    // A text that is a description is read as it stands.
    ensures fitting { ForSome (option_copied text.entry) (λ t. IsTrue (fits Kind.Description t) → AnswersBy (λ d. d) result t) }
{
    match description_if(alloc, text)? {
        Some(text) => Ok(text),
        None => Ok(no_description(alloc)),
    }
}

fn at_most(number: Option<u64>, most: u64) -> Option<u64>
    ensures value { result ≡ at_most most number }
    ensures within { IfSome result (λ n. n ≤ most) }
{
    match number {
        Some(n) => { if n <= most { Some(n) } else { None } }
        None => None,
    }
}

/// A number that is at most `most`.
pub fn number(text: Option<&[u8]>, most: u64) -> Option<u64>
    ensures value { result ≡ number_of most (option_copied text.entry) }
    ensures within { IfSome result (λ n. n ≤ most) }

    // A text that is a number of at most so many is read as the number that it writes.
    ensures fitting { (least limit : ℕ) → limit ≤ most → ForSome (option_copied text.entry) (λ t. IsTrue (fits (Kind.Number least limit) t) → IsSpelled result (decimal 10 t)) }
{
    match text {
        Some(text) => at_most(decimal(text, 10), most),
        None => None,
    }
}

/// A percentage.
pub fn percent(text: Option<&[u8]>) -> Option<u8>
    ensures value { result ≡ number_of 100 (option_copied text.entry) }

    // A text that is a number of at most so many is read as the number that it writes.
    ensures fitting { (least limit : ℕ) → limit ≤ 100 → ForSome (option_copied text.entry) (λ t. IsTrue (fits (Kind.Number least limit) t) → IsSpelled result (decimal 10 t)) }
{
    match number(text, 100) {
        Some(n) => Some(n as u8),
        None => None,
    }
}

/// A count of at most 9,999.
pub fn count(text: Option<&[u8]>) -> Option<u16>
    ensures value { result ≡ number_of 9999 (option_copied text.entry) }

    // A text that is a number of at most so many is read as the number that it writes.
    ensures fitting { (least limit : ℕ) → limit ≤ 9999 → ForSome (option_copied text.entry) (λ t. IsTrue (fits (Kind.Number least limit) t) → IsSpelled result (decimal 10 t)) }
{
    match number(text, 9999) {
        Some(n) => Some(n as u16),
        None => None,
    }
}

/// A number of mebibytes, at most 65,536.
pub fn mebibytes(text: Option<&[u8]>) -> Option<u32>
    ensures value { result ≡ number_of 65536 (option_copied text.entry) }

    // A text that is a number of at most so many is read as the number that it writes.
    ensures fitting { (least limit : ℕ) → limit ≤ 65536 → ForSome (option_copied text.entry) (λ t. IsTrue (fits (Kind.Number least limit) t) → IsSpelled result (decimal 10 t)) }
{
    match number(text, 65536) {
        Some(n) => Some(n as u32),
        None => None,
    }
}

/// A span of days.
pub fn days(text: Option<&[u8]>) -> Option<Days>
    ensures value { result ≡ number_of 9999 (option_copied text.entry) }

    // A text that is a number of at most so many is read as the number that it writes.
    ensures fitting { (least limit : ℕ) → limit ≤ 9999 → ForSome (option_copied text.entry) (λ t. IsTrue (fits (Kind.Number least limit) t) → IsSpelled result (decimal 10 t)) }
{
    match number(text, 9999) {
        Some(n) => Days::new(n as u16),
        None => None,
    }
}

/// A span of days, or so many where none was given.
pub fn days_or(text: Option<&[u8]>, otherwise: u16) -> Days
    requires { otherwise ≤ 9999 }
    ensures value { result ≡ unwrap_or (number_of 9999 (option_copied text.entry)) otherwise }

    // A text that is a number of at most so many is read as the number that it writes.
    ensures fitting { (least limit : ℕ) → limit ≤ 9999 → ForSome (option_copied text.entry) (λ t. IsTrue (fits (Kind.Number least limit) t) → decimal 10 t ≡ Some result) }
{
    let count = match number(text, 9999) {
        Some(n) => n as u16,
        None => otherwise,
    };
    Days::new(count).unwrap()
}

/// A day.
pub fn day(text: Option<&[u8]>) -> Option<Day>
    ensures value { result ≡ number_of 2147483647 (option_copied text.entry) }

    // A text that is a number of at most so many is read as the number that it writes.
    ensures fitting { (least limit : ℕ) → limit ≤ 2147483647 → ForSome (option_copied text.entry) (λ t. IsTrue (fits (Kind.Number least limit) t) → IsSpelled result (decimal 10 t)) }
{
    match number(text, 2147483647) {
        Some(n) => Day::new(n as u32),
        None => None,
    }
}

fn limit_at(number: Option<u64>, most: u32) -> Option<Limit>
    requires { ForSome number (λ n. n ≤ most) }
    ensures { result ≡ limit_at number }
{
    match number {
        Some(n) => Some(Limit::At(n as u32)),
        None => None,
    }
}

/// A limit of versions or of days, of at most `most`.
pub fn limit(text: Option<&[u8]>, most: u32) -> Option<Limit>
    ensures value { result ≡ limit_of most (option_copied text.entry) }

    // A text that is a limit of at most so many is read as the limit that it spells.
    ensures fitting { (least limit : ℕ) → limit ≤ most → ForSome (option_copied text.entry) (λ t. IsTrue (fits (Kind.Limit least limit) t) → IsSpelled result (limit_spelled t)) }
{
    match text {
        Some(text) => {
            if is_no_limit(text) {
                Some(Limit::NoLimit)
            } else {
                limit_at(at_most(decimal(text, 10), u64::from(most)), most)
            }
        }
        None => None,
    }
}

fn size_limit_at(number: Option<u64>) -> Option<SizeLimit>
    ensures { result ≡ size_limit_at number }
{
    match number {
        Some(n) => Some(SizeLimit::At(n)),
        None => None,
    }
}

/// A limit of the sizes of objects.
pub fn size_limit(text: Option<&[u8]>) -> Option<SizeLimit>
    ensures value { result ≡ size_limit_of (option_copied text.entry) }

    // A text that is a limit of sizes is read as the limit that it spells.
    ensures fitting { (least limit : ℕ) → ForSome (option_copied text.entry) (λ t. IsTrue (fits (Kind.SizeLimit least limit) t) → IsSpelled result (size_limit_spelled t)) }
{
    match text {
        Some(text) => {
            if is_no_limit(text) {
                Some(SizeLimit::NoLimit)
            } else {
                size_limit_at(size(text))
            }
        }
        None => None,
    }
}

/// A size in bytes.
pub fn bytes(text: Option<&[u8]>) -> Option<u64>
    ensures value { result ≡ size_of (option_copied text.entry) }

    // A text that is a size is read as the bytes that it stands for.
    ensures fitting { (least limit : ℕ) → ForSome (option_copied text.entry) (λ t. IsTrue (fits (Kind.Size least limit) t) → IsSpelled result (size t)) }
{
    match text {
        Some(text) => size(text),
        None => None,
    }
}

/// How many bytes a volume has.
pub fn capacity(text: Option<&[u8]>) -> Option<Capacity>
    ensures value { result ≡ capacity_of (option_copied text.entry) }

    // A text that is a size which a volume may have is read as the bytes that it stands for.
    ensures fitting { (least limit : ℕ) → 65536 ≤ least → limit ≤ 2 ^ 40 → ForSome (option_copied text.entry) (λ t. IsTrue (fits (Kind.Size least limit) t) → IsSpelled result (size t)) }
{
    match bytes(text) {
        Some(n) => Capacity::new(n),
        None => None,
    }
}

/// Which of the words a value stands for, by its number.
pub fn word(text: Option<&[u8]>, words: &[&'static str]) -> Option<usize>
    ensures value { result ≡ word_of (map (λ w. w.now) words.now) (option_copied text.entry) }
    ensures within { IfSome result (λ at. at < length words.now) }

    // A text that stands for one of the words has one.
    ensures fitting { ForSome (option_copied text.entry) (λ t. IsTrue (is_one_of (map (λ w. w.now) words.now) t) → IsSome result) }
{
    match text {
        Some(text) => match choose(0, text, words) {
            Ok(at) => Some(at),
            Err(_) => None,
        },
        None => None,
    }
}
