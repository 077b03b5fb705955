//! The machine: what each step of the server makes of the hall and when it is refused, as definitions (specs/Machine, specs/Causes); what a step's reply says of the database
//! that it was made on and of the actor's own tickets (specs/Says); and what it is for a list of events of one actor to fit a history (specs/Fits). Here stand the laws that
//! they keep.
#![tactic(auto)]

pub mod laws;
