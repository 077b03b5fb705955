//! Reads lines of a command language that is given by a table: the words of a line, which of the words that are possible
//! at a place is meant, the kinds of values, and the values of a row of the table from left to right. It knows no command.
#![tactic(auto)]

mod choice;
mod comments;
pub mod field;
mod row;
mod text;
mod value;
mod words;

pub use choice::{Titled, begins, choose, is_front};
pub use comments::is_comment;
pub use row::{Given, Need, Place, Slot, first_value, row_values, text_at};
pub use text::Text;
pub use value::{Kind, Words, decimal, is_no_limit, size, unquoted, valued};
pub use words::{EQUALS, QUOTE, Word, is_blank, torn_at, words_behind, words_of};
