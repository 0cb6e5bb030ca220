// Bytes: numbers, events and records read from strings and written to them, big-endian (Events, Records).
#![tactic(auto)]

mod bytes;
mod event;
mod record;

pub use event::{EVENT, event_bytes, read_event};
pub use record::{RECORD, read_record, record_bytes};
