//! Unique ids and the table of descriptors.
#![tactic(auto)]

mod descriptors;
mod escapes;
mod id_faults;
mod id_fields;
mod id_texts;
mod ids;
pub mod laws;
mod locks;
mod scanning;
mod segment_lists;
mod segments;
mod tables;
mod texts;
mod writing;

pub use descriptors::{DType, Descriptor};
pub use id_faults::IdFault;
pub use id_texts::IdText;
pub use ids::{MAX_BYTES, MAX_SEGMENTS, UniqueId};
pub use locks::{Lock, LockMode, Locks};
pub use segment_lists::{SegmentIter, SegmentRef, Segments};
pub use segments::Segment;
pub use tables::{LockFault, MAX_DESCRIPTORS, Table, TableFault};
pub use texts::Text;
