// What the programs share: the words they are called with, input in groups and a piece at a time, text and numbers written through a
// buffer, numbers read from words, and messages that are counted.
#![tactic(auto)]

mod arguments;
mod buffer;
mod failure;
mod group;
mod input;
mod messages;
mod numeral;
mod output;
mod pieces;
mod retry;
mod stream;
mod told;
mod turns;

pub use arguments::{none_given, only_number, tell_use};
pub use buffer::Buffer;
pub use group::group_end;
pub use input::{fill, reads_on};
pub use messages::Messages;
pub use numeral::{NoNumeral, digit, parse};
pub use output::{BUFFER, Output};
pub use pieces::{Takes, each_piece};
pub use stream::Stream;
pub use told::tell;
pub use turns::{TURNS, turns_left};
