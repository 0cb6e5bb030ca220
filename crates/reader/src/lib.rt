// The ground reader: the instrument's state, from nothing but its log (The ground reader).
#![tactic(auto)]

mod content;
mod reader;
mod reply;

pub use reader::Reader;
pub use reply::{Read, Reply};
