//! What is chosen is lawful: the free space of volumes fits where the rules of the database look when a transaction brings segments.
#![tactic(auto)]

mod laws;

pub use laws::{
    chosen_places_apart, chosen_whole, free_space_fits, holder_is_found, own_segments_end,
    scratch_fits, tails_fit, unforced_is_found,
};
