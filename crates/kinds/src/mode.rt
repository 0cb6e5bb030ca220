// The modes of the instrument and their numbers (State).
ghost use Rattle.std.specs.Prelude.{◌≡◌};
ghost use Rattle.kinds.specs.Kinds.{mode_number, mode_of};

use crate::UnknownNumber;

#[derive(Clone, Copy, PartialEq, Eq)]
pub enum Mode {
    Boot,
    Terminal,
    Quiescent,
    Hold,
    Calibration,
    Physics,
    Too,
}

impl Mode {
    pub const BOOT: u16 = 0;

    pub const TERMINAL: u16 = 1;

    pub const QUIESCENT: u16 = 2;

    pub const HOLD: u16 = 3;

    pub const CALIBRATION: u16 = 4;

    pub const PHYSICS: u16 = 5;

    pub const TOO: u16 = 6;
}

impl From<Mode> for u16 {
    ghost from_gives = { λ mode number. number ≡ mode_number mode };

    fn from(mode: Mode) -> u16 {
        match mode {
            Mode::Boot => Mode::BOOT,
            Mode::Terminal => Mode::TERMINAL,
            Mode::Quiescent => Mode::QUIESCENT,
            Mode::Hold => Mode::HOLD,
            Mode::Calibration => Mode::CALIBRATION,
            Mode::Physics => Mode::PHYSICS,
            Mode::Too => Mode::TOO,
        }
    }
}

impl TryFrom<u16> for Mode {
    type Error = UnknownNumber;

    ghost try_from_gives = { λ number found. found ≡ mode_of number };

    fn try_from(number: u16) -> Result<Mode, UnknownNumber> {
        match number {
            Mode::BOOT => Ok(Mode::Boot),
            Mode::TERMINAL => Ok(Mode::Terminal),
            Mode::QUIESCENT => Ok(Mode::Quiescent),
            Mode::HOLD => Ok(Mode::Hold),
            Mode::CALIBRATION => Ok(Mode::Calibration),
            Mode::PHYSICS => Ok(Mode::Physics),
            Mode::TOO => Ok(Mode::Too),
            _ => Err(UnknownNumber),
        }
    }
}
