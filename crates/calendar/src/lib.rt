//! The smallest database: how many transactions were made, and the day; and a memo that no transaction changes, which makes its
//! payload long. Its only legal transactions are new days. It shows what a vault asks of a database, and that it can be had; the
//! vault is tried with it.
#![tactic(auto)]

mod calendar;

pub use calendar::Calendar;
