// Messages of one kind. The first twenty are told and the rest only counted, so that a wrong file does not hide all else on the screen.
ghost use Rattle.std.specs.Prelude.{◌+◌, ◌-◌, min, ◌≡◌, ltb};

use crate::told::tell;

const MOST_TOLD: u64 = 20;

// How many there were.
#[derive(Clone, Copy)]
pub struct Messages {
    pub count: u64,
}

impl Messages {
    pub fn none() -> Messages
        ensures { result.count ≡ 0 }
    {
        Messages { count: 0 }
    }

    // Counts one more, no further than the largest number, and says whether it is told.
    pub fn one_more(&mut self) -> bool
        ensures told { result ≡ ltb self.old.count 20 }
        ensures counted { self.new.count ≡ min (self.old.count + 1) 18_446_744_073_709_551_615 }
    {
        let told = self.count < MOST_TOLD;
        self.count = self.count.saturating_add(1);
        told
    }

    // How many were not told.
    pub fn rest(self) -> u64
        ensures { result ≡ self.count - 20 }
    {
        self.count.saturating_sub(MOST_TOLD)
    }

    // How many were not told, in one line, where there are any: a text, their number, and a text for one or for several.
    pub fn tell_rest(self, rt: HostRuntime, before: &[u8], one: &[u8], several: &[u8]) {
        match self.rest() {
            0 => {},
            1 => tell(rt, before, 1, one),
            rest => tell(rt, before, rest, several),
        }
    }
}
