//! Steps of actors as the words of a line, and what they are answered, in words, by whoever makes them. Programs read lines of them.
//!
//! - `open_new POOL SIZE PREFER`; `open_copy OBJECT AVOID AIM` with the aim `new POOL`, `copy TO`, `move FROM PLACED TO along` or `move FROM PLACED TO alone`; `write TICKET TEXT`;
//!   `copy_piece TICKET`; `seal TICKET`; `drop TICKET`.
//! - Commits: `plain DIGITS TICKET..`, the change of a transaction; `backup FILESPACE PATH MTIME TEXT TICKET..`; `hold FILESPACE PATH UNTIL TEXT TICKET..`, until a day, or until `-`, for ever;
//!   `placed TICKET..`. What is stored is to have the SHA-256 of the text.
//! - `read OBJECT TEXT FROM OFFSET WANTED`: a piece of an object that has the SHA-256 of the text; how many bytes were read, and the first eight of them.
//! - `ask QUERY`: the number and the day, and then the rows; `today`, `unretained`, `emptied`, `log`, `held FILESPACE` and `onpool POOL`.
//! - `image KIND` with `checkpoint`, `backup`, `since FILE` or `next`; `reuse FILE`; `force`.
//! - A text is the word's bytes, `COUNT*BYTE` for so many bytes with this number, several of these with `+` between them, or `-` for none.
#![tactic(auto)]

mod fault;
mod lines;
mod making;
mod replies;
mod words;

pub use fault::Fault;
pub use lines::step;
pub use making::answer;
pub use replies::{acknowledged, done, numbered, put_digest, refusal, text};
pub use words::{bytes_of, entry, long, longs, number};
