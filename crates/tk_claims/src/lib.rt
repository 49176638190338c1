//! Which records are runs of an engine, and the claim from which its workers draw their units.
#![tactic(auto)]

mod claim_rules;
mod claims;
pub mod laws;

pub use claims::{Claim, ClaimFault, ClaimSeat};
