//! The nodes of a plan: trees in preorder, with their numbers, positions and parents.

pub mod declared_locks;
pub mod nodes;
pub mod numbering;
pub mod parents;
pub mod positions;
