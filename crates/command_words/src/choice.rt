ghost use Rattle.std.specs.Prelude.{◌≡◌, ◌<◌, ℕ, List, length, map, count_by, IfOk, IfSome};
ghost use Rattle.std.specs.List.{position_from};
ghost use Rattle.std.specs.Str.{str_to_ascii_uppercase};
ghost use Rattle.command_words.specs.Choice.{begins, is_whole, is_front, spelled, choose};

use kinds::Refusal;

/// What is called by a word in upper case.
pub trait Titled {
    ghost title: { Self → List ℕ };

    /// Its word.
    fn title(&self) -> &str
        ensures { result.now ≡ title self.now };
}

impl Titled for &'static str {
    ghost title = { λ s. s.now };

    fn title(&self) -> &str {
        self
    }
}

impl<X> Titled for (&'static str, X) {
    ghost title = { λ s. s.0.now };

    fn title(&self) -> &str {
        self.0
    }
}

impl<X, Y, Z> Titled for (&'static str, X, Y, Z) {
    ghost title = { λ s. s.0.now };

    fn title(&self) -> &str {
        self.0
    }
}

/// Whether the option, which is in upper case, begins as the word does, in whatever case.
pub fn begins(option: &[u8], word: &[u8]) -> bool
    ensures { result ≡ begins option.now word.now }
{
    if option.len() < word.len() {
        return false;
    }
    'bytes: for (at, byte) in word.iter().enumerate() {
        if option[at] != byte.to_ascii_uppercase() {
            return false;
        }
    }
    true
}

fn is_whole(option: &[u8], word: &[u8]) -> bool
    ensures { result ≡ is_whole option.now word.now }
{
    option.len() == word.len() && begins(option, word)
}

/// Whether the word is the option, which is in upper case, or a front of it with at least one letter, in whatever case.
pub fn is_front(option: &[u8], word: &[u8]) -> bool
    ensures { result ≡ is_front option.now word.now }
{
    !word.is_empty() && begins(option, word)
}

/// The word itself, or VOLUME for VOL.
fn spelled(word: &[u8]) -> &[u8]
    ensures { result.now ≡ spelled word.now }
{
    if is_whole(b"VOL", word) {
        b"VOLUME"
    } else {
        word
    }
}

fn first_whole<T: Titled>(options: &[T], word: &[u8]) -> Option<usize>
    ensures value { result ≡ position_from (λ o. is_whole (T.title o) word.now) 0 options.now }
    ensures within { IfSome result (λ at. at < length options.now) }
{
    options
        .iter()
        .position(|option| is_whole(option.title().as_bytes(), word))
}

fn first_beginning<T: Titled>(options: &[T], word: &[u8]) -> Option<usize>
    ensures value { result ≡ position_from (λ o. begins (T.title o) word.now) 0 options.now }
    ensures within { IfSome result (λ at. at < length options.now) }
{
    options
        .iter()
        .position(|option| begins(option.title().as_bytes(), word))
}

fn count_beginning<T: Titled>(options: &[T], word: &[u8]) -> usize
    ensures { result ≡ count_by (λ o. begins (T.title o) word.now) options.now }
{
    options
        .iter()
        .filter(|option| begins(option.title().as_bytes(), word))
        .count()
}

/// Which of the options the word at this column stands for: the one that it is as a whole, or the only one that begins as
/// it does. It is `UnknownWord` where none begins so, and `Ambiguous` where several do.
pub fn choose<T: Titled>(column: u32, word: &[u8], options: &[T]) -> Result<usize, Refusal>
    ensures value { result ≡ choose column word.now (map T.title options.now) }

    // The case of the word's letters does not matter.
    ensures any_case { (other : List ℕ) → str_to_ascii_uppercase other ≡ str_to_ascii_uppercase word.now → result ≡ choose column other (map T.title options.now) }
    ensures within { IfOk result (λ at. at < length options.now) }
{
    let word = spelled(word);
    match first_whole(options, word) {
        Some(at) => Ok(at),
        None => match first_beginning(options, word) {
            None => Err(Refusal::UnknownWord(column)),
            Some(at) => {
                if count_beginning(options, word) == 1 {
                    Ok(at)
                } else {
                    Err(Refusal::Ambiguous(column))
                }
            }
        },
    }
}
