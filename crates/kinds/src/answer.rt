// The manager's answers and their numbers (Answers of the manager, Log blocks).
ghost use Rattle.std.specs.Prelude.{◌≡◌};
ghost use Rattle.kinds.specs.Kinds.{answer_number};

use crate::Status;

// The paper's list of answers, each with its number, and no Result: `answer_number` goes through it case by case, and EMPTY and FULL are
// answers as the statuses are.
#[derive(Clone, Copy, PartialEq, Eq)]
pub enum Answer {
    // What was asked is in the log, with this status: done, or refused by the rules. A flush answers Success.
    Taken(Status),
    Full,
    BadState,
    BadEvent,
    BadBuf,
    Empty,
}

impl Answer {
    pub const FULL: u16 = 12;

    pub const BADSTATE: u16 = 13;

    pub const BADEVENT: u16 = 14;

    pub const BADBUF: u16 = 15;

    pub const EMPTY: u16 = 16;
}

impl From<Answer> for u16 {
    ghost from_gives = { λ answer number. number ≡ answer_number answer };

    fn from(answer: Answer) -> u16 {
        match answer {
            Answer::Taken(status) => u16::from(status),
            Answer::Full => Answer::FULL,
            Answer::BadState => Answer::BADSTATE,
            Answer::BadEvent => Answer::BADEVENT,
            Answer::BadBuf => Answer::BADBUF,
            Answer::Empty => Answer::EMPTY,
        }
    }
}
