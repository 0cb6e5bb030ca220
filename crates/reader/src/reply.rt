// What the reader answers, and the numbers of its answers (The ground reader).
ghost use Rattle.std.specs.Prelude.{◌≡◌};
ghost use Rattle.reader.specs.Reader.{reply_number};

use crate::Reader;

// The answers, in the order of their numbers. `reply_number` goes through them all, so those that refuse are no type of their own.
#[derive(Clone, Copy, PartialEq, Eq)]
pub enum Reply {
    Applied,
    Already,
    Gap,
    Damaged,
    OtherLog,
    Nonsense,
    RState,
}

// No Result: a GAP is no error, and the reader comes with each answer.
#[derive(Clone, Copy)]
pub struct Read {
    pub reader: Reader,
    pub answer: Reply,
}

impl Reply {
    pub const APPLIED: u16 = 0;

    pub const ALREADY: u16 = 1;

    pub const GAP: u16 = 2;

    pub const DAMAGED: u16 = 3;

    pub const OTHERLOG: u16 = 4;

    pub const NONSENSE: u16 = 5;

    pub const RSTATE: u16 = 6;
}

impl From<Reply> for u16 {
    ghost from_gives = { λ reply n. n ≡ reply_number reply };

    fn from(reply: Reply) -> u16 {
        match reply {
            Reply::Applied => Reply::APPLIED,
            Reply::Already => Reply::ALREADY,
            Reply::Gap => Reply::GAP,
            Reply::Damaged => Reply::DAMAGED,
            Reply::OtherLog => Reply::OTHERLOG,
            Reply::Nonsense => Reply::NONSENSE,
            Reply::RState => Reply::RSTATE,
        }
    }
}
