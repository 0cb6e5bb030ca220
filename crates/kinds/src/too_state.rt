// How far the target of opportunity is, and the numbers (State).
ghost use Rattle.std.specs.Prelude.{◌≡◌};
ghost use Rattle.kinds.specs.Kinds.{too_state_number, too_state_of};

use crate::UnknownNumber;

#[derive(Clone, Copy, PartialEq, Eq)]
pub enum TooState {
    None,
    Waiting,
    Started,
}

impl TooState {
    pub const NONE: u16 = 0;

    pub const WAITING: u16 = 1;

    pub const STARTED: u16 = 2;
}

impl From<TooState> for u16 {
    ghost from_gives = { λ too number. number ≡ too_state_number too };

    fn from(too: TooState) -> u16 {
        match too {
            TooState::None => TooState::NONE,
            TooState::Waiting => TooState::WAITING,
            TooState::Started => TooState::STARTED,
        }
    }
}

impl TryFrom<u16> for TooState {
    type Error = UnknownNumber;

    ghost try_from_gives = { λ number found. found ≡ too_state_of number };

    fn try_from(number: u16) -> Result<TooState, UnknownNumber> {
        match number {
            TooState::NONE => Ok(TooState::None),
            TooState::WAITING => Ok(TooState::Waiting),
            TooState::STARTED => Ok(TooState::Started),
            _ => Err(UnknownNumber),
        }
    }
}
