// How LPA runs, for the ordinary observation or for the target of opportunity, and the numbers (State).
ghost use Rattle.std.specs.Prelude.{◌≡◌};
ghost use Rattle.kinds.specs.Kinds.{lpa_mode_number, lpa_mode_of};

use crate::UnknownNumber;

#[derive(Clone, Copy, PartialEq, Eq)]
pub enum LpaMode {
    Normal,
    Too,
}

impl LpaMode {
    pub const NORMAL: u16 = 0;

    pub const TOO: u16 = 1;
}

impl From<LpaMode> for u16 {
    ghost from_gives = { λ mode number. number ≡ lpa_mode_number mode };

    fn from(mode: LpaMode) -> u16 {
        match mode {
            LpaMode::Normal => LpaMode::NORMAL,
            LpaMode::Too => LpaMode::TOO,
        }
    }
}

impl TryFrom<u16> for LpaMode {
    type Error = UnknownNumber;

    ghost try_from_gives = { λ number found. found ≡ lpa_mode_of number };

    fn try_from(number: u16) -> Result<LpaMode, UnknownNumber> {
        match number {
            LpaMode::NORMAL => Ok(LpaMode::Normal),
            LpaMode::TOO => Ok(LpaMode::Too),
            _ => Err(UnknownNumber),
        }
    }
}
