//! The policy of the server: domains, policy sets, management classes and their copy groups, and the rules by which the versions
//! of a file and archived objects are kept.
#![tactic(auto)]

mod changes;
mod classes;
mod initial;
mod makings;
mod named;
mod policy;
mod refusals;
mod sets;
mod table;

pub use changes::names_active;
pub use classes::ManagementClass;
pub use policy::PolicyDomain;
pub use sets::PolicySet;
pub use table::Domains;
