//! Records: what they are made of, selections and statistics of them, and their texts.
pub use tk_events::{Entry, Event, Kind, Pairs, Payload, Status};
pub use tk_ids::{
    DType, Descriptor, IdFault, Lock, LockFault, LockMode, Locks, Segment, Table, TableFault, Text,
    UniqueId,
};
pub use tk_record::{EntryView, Events, Expected, Mismatch, Record, Selection, Statistics};
pub use tk_record_text::{WriteFault, write_record};
pub use tk_streams::{Broken, ByteTarget, StdTarget, Target};
