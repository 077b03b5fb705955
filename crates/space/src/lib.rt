//! Where objects may be placed on volumes: what tickets hold there beside the copies, the free space of storage pools, and which of it an
//! object gets.
#![tactic(auto)]

mod aim;
mod choosing;
mod claims;
mod counted;
mod laws;
mod piece;
mod places;
mod request;
mod runs;
mod site;
mod tails;
mod turn;
mod volumes;

pub use aim::Aim;
pub use choosing::{
    choose_by_walk, filled, goes_to, may_take, no_place, pieces, placed_in, room, walked,
};
pub use claims::{Claim, Space};
pub use counted::{Counted, other_places, own_places};
pub use laws::{filled_space_is_enough, free_space_is_free};
pub use piece::Piece;
pub use places::{Placed, Places};
pub use request::Request;
pub use site::Site;
pub use tails::{max_scratch, push_tails};
pub use turn::Turn;
pub use volumes::{claim_all, is_held, is_writable, scratch_count, site_of, sites};
