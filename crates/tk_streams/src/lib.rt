//! Sources and targets of bytes, over memory and over readers and writers of std.
#![tactic(auto)]

mod device_streams;
pub mod laws;
mod memory_streams;
mod pieces;
mod short_lines;
mod streams;
mod transfers;

pub use device_streams::{StdSource, StdTarget};
pub use memory_streams::{ByteSource, ByteTarget};
pub use pieces::Piece;
pub use short_lines::{MAX_DIGITS, SHORT_LINE, ShortLine};
pub use streams::{Broken, Source, Target};
pub use transfers::{CHUNK, LoadFault, load, write_all};
