// The kinds that the book speaks of, with their numbers: modes, task states, LPA modes, TOO states, flags, statuses, answers.
#![tactic(auto)]

mod answer;
pub mod flag;
mod lpa_mode;
mod mode;
mod status;
mod task;
mod too_state;

pub use answer::Answer;
pub use lpa_mode::LpaMode;
pub use mode::Mode;
pub use status::Status;
pub use task::Task;
pub use too_state::TooState;

// The last of the 32-bit numbers, where what is counted ends.
pub const LAST_NUMBER: u32 = 4_294_967_295;

// What was read as a kind or a flag has a number that none of them has.
#[derive(Clone, Copy, PartialEq, Eq)]
pub struct UnknownNumber;
