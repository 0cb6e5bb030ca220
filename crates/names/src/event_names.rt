// The names of the events and how many numbers go with each (Events). One table serves both ways: a code's name, and a name's code.
ghost use Rattle.std.specs.Prelude.{◌≡◌};
ghost use Rattle.std.specs.Option.{option_copied};
ghost use Rattle.names.specs.EventNames.{event_name, event_code, event_numbers, some_name, some_code};

use crate::text::same_word;
use events::Event;

// How many codes the table goes through, 0 among them.
const CODES: u16 = 24;

// By the codes; 0 is none.
const NAMES: [&[u8]; CODES as usize] = [
    b"",
    b"STARTED",
    b"MAINFEEDON",
    b"POWERON",
    b"POWEROFF",
    b"HOLDENTER",
    b"HOLDEXIT",
    b"SAAENTER",
    b"SAAEXIT",
    b"LOADSHED",
    b"NOOP",
    b"CALSTART",
    b"CALABORT",
    b"CALOTHER",
    b"LPASTART",
    b"LPASTOP",
    b"LPAOTHER",
    b"TOOSTART",
    b"TOOABORT",
    b"TOOEXPIRED",
    b"CALSTATUS",
    b"CALCOMPLETE",
    b"LPASTATUS",
    b"LPACOMPLETE",
];

// The name of an event's code.
#[tactic(auto, unfolding(crate::specs::EventNames::event_name))]
pub fn event(code: u16) -> Option<&'static [u8]>
    ensures { option_copied result ≡ some_name (event_name code) }
{
    match code {
        1..CODES => Some(NAMES[code as usize]),
        _ => None,
    }
}

// The code of an event's name, in any case.
pub fn event_code(name: &[u8]) -> Option<u16>
    ensures { result ≡ some_code (event_code name.now) }
{
    (1..CODES).find(|code| same_word(name, NAMES[*code as usize]))
}

// How many numbers go with an event, by its code; 0 where there is no event, as the definition has it.
#[tactic(auto, unfolding(crate::specs::EventNames::event_numbers))]
pub fn event_numbers(code: u16) -> u8
    ensures { result ≡ event_numbers code }
{
    match code {
        Event::TOOSTART => 2,
        Event::POWERON | Event::POWEROFF | Event::LPASTART | Event::TOOEXPIRED => 1,
        Event::CALSTATUS | Event::LPASTATUS => 1,
        _ => 0,
    }
}
