// The words that a program was called with.
use crate::failure::say;
use crate::numeral::{NoNumeral, parse};
use std::env::FillError;
use std::rt::Env;

// No word is longer.
const LONGEST: usize = 4096;

// The one word after the program's name, as a number: no number where there is none, or more than one.
pub fn only_number(rt: HostRuntime) -> Result<u32, NoNumeral> {
    if !given(rt, 1) || given(rt, 2) {
        return Err(NoNumeral::NoNumber);
    }
    let mut word = [0u8; LONGEST];
    let n = rt.arg(1, &mut word)?;
    parse(&word[..n])
}

// A word that is longer, or that there is not.
impl From<FillError> for NoNumeral {
    ghost use Rattle.std.specs.Prelude.{◌≡◌};
    ghost use Rattle.terminal.specs.declared.numeral.NoNumeral.{NoNumeral};

    ghost from_gives = { λ _ e. e ≡ NoNumeral.NoNumber };

    fn from(_: FillError) -> Self {
        Self::NoNumber
    }
}

// Whether there is no word after the program's name.
pub fn none_given(rt: HostRuntime) -> bool {
    given(rt, 0) && !given(rt, 1)
}

// Whether there is a word at a place, of whatever length. The program's name is at 0.
fn given(rt: HostRuntime, i: usize) -> bool {
    let mut nothing = [0u8; 0];
    match rt.arg(i, &mut nothing) {
        Ok(_) | Err(FillError::TooLong) => true,
        Err(FillError::NotPresent) => false,
    }
}

// How a program is called, told in one line.
pub fn tell_use(rt: HostRuntime, line: &[u8]) {
    say(rt, line);
}
