//! A run over a script: lines are read from a source, each is answered by whoever serves them, and the answers are
//! printed into a sink, up to the last line that says how the run ended. It knows no command and no store.
#![tactic(auto)]

mod answerer;
mod ends;
mod reader;
mod reply;
mod script;
mod tally;

pub use answerer::{Answered, Answerer};
pub use ends::{End, Halt, number_line, put_last};
pub use reader::{LineReader, Next};
pub use reply::Reply;
pub use script::{Progress, answered, begin, run};
pub use tally::Tally;
