ghost use Rattle.std.specs.Prelude.{◌≡◌};
ghost use Rattle.std.specs.List.{list_all};
ghost use Rattle.command_words.specs.Comments.{is_marked, is_comment};
ghost use Rattle.command_words.specs.Words.{is_blank};

use crate::words::is_blank;

fn are_blanks(line: &[u8]) -> bool
    ensures { result ≡ list_all is_blank line.now }
{
    line.iter().all(|b| is_blank(*b))
}

fn is_marked(line: &[u8]) -> bool
    ensures { result ≡ is_marked line.now }
{
    line.starts_with(b"/*") && line.ends_with(b"*/")
}

/// Whether a line is a comment: one of spaces and tabs alone, or one that begins with `/*` and ends with `*/`.
pub fn is_comment(line: &[u8]) -> bool
    ensures { result ≡ is_comment line.now }
{
    are_blanks(line) || is_marked(line)
}
