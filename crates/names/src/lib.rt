// The words of the paper: the names of modes, states, statuses and events, the columns of a state, and a line of text read as an event.
// Records are in `record_words`, which needs these.
#![tactic(auto)]

mod columns;
mod event_names;
mod kind_names;
mod line;
mod text;

pub use columns::{DESK_HEAD, LISTING_HEAD, desk_columns, listing_columns};
pub use event_names::{event, event_code, event_numbers};
pub use kind_names::{lpa_mode, mode, status, task, too_state};
pub use line::{Expected, read_line};
pub use text::{after_separators, after_word, first_word};
