//! The archive of a radial feeder: its bytes read into a section list.
//!
//! Faults are layered: a [`BytesFault`] says where bytes end too soon, a
//! [`RecordFault`] what is wrong with a record, and a [`LoadFault`] what is
//! wrong with the archive. Each carries the fault of the layer below whole.
#![tactic(auto)]

mod bytes;
mod fault;
mod fields;
mod load;
mod name;
mod record;

pub use bytes::BytesFault;
pub use fault::{Layer, LoadFault, SectionFault};
pub use load::load_sections;
pub use record::{Record, RecordFault, read_record};
