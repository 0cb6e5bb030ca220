// The events that the manager takes, their codes and their numbers (Events).
#![tactic(auto)]

ghost use Rattle.std.specs.Prelude.{◌≡◌};
ghost use Rattle.events.specs.Event.{no_event, is_started, parts_of_event, event_of, event_parts, bare_event, single_event, report_event};
ghost use Rattle.kinds.specs.Kinds.{flag_of};

use kinds::{UnknownNumber, flag};

#[derive(Clone, Copy, PartialEq, Eq)]
pub enum Event {
    Started,
    MainFeedOn,
    PowerOn { mask: u32 },
    PowerOff { mask: u32 },
    HoldEnter,
    HoldExit,
    SaaEnter,
    SaaExit,
    LoadShed,
    NoOp,
    CalStart,
    CalAbort,
    CalOther,
    LpaStart { run: u32 },
    LpaStop,
    LpaOther,
    TooStart { run: u32, dwell: u32 },
    TooAbort,
    TooExpired { armed: u32 },
    CalStatus { good: bool },
    CalComplete,
    LpaStatus { good: bool },
    LpaComplete,
}

// What was read as an event's numbers is not those of any.
#[derive(Clone, Copy, PartialEq, Eq)]
pub struct NoEvent;

// An event as it is sent: its code, the field that is always zero, and its two parameters.
#[derive(Clone, Copy, PartialEq, Eq)]
pub struct EventParts {
    pub code: u16,
    pub zero: u16,
    pub a: u32,
    pub b: u32,
}

impl Event {
    pub const STARTED: u16 = 1;

    pub const MAINFEEDON: u16 = 2;

    pub const POWERON: u16 = 3;

    pub const POWEROFF: u16 = 4;

    pub const HOLDENTER: u16 = 5;

    pub const HOLDEXIT: u16 = 6;

    pub const SAAENTER: u16 = 7;

    pub const SAAEXIT: u16 = 8;

    pub const LOADSHED: u16 = 9;

    pub const NOOP: u16 = 10;

    pub const CALSTART: u16 = 11;

    pub const CALABORT: u16 = 12;

    pub const CALOTHER: u16 = 13;

    pub const LPASTART: u16 = 14;

    pub const LPASTOP: u16 = 15;

    pub const LPAOTHER: u16 = 16;

    pub const TOOSTART: u16 = 17;

    pub const TOOABORT: u16 = 18;

    pub const TOOEXPIRED: u16 = 19;

    pub const CALSTATUS: u16 = 20;

    pub const CALCOMPLETE: u16 = 21;

    pub const LPASTATUS: u16 = 22;

    pub const LPACOMPLETE: u16 = 23;

    // The one event that is heard in BOOT.
    pub fn is_started(self) -> bool
        ensures { result ≡ is_started self }
    {
        EventParts::from(self).code == Event::STARTED
    }
}

impl From<UnknownNumber> for NoEvent {
    ghost from_gives = { λ _ refused. refused ≡ no_event };

    fn from(_flag: UnknownNumber) -> NoEvent {
        NoEvent
    }
}

impl From<Event> for EventParts {
    ghost from_gives = { λ event parts. parts ≡ parts_of_event event };

    #[tactic(auto, unfolding(crate::specs::Event::parts_of_event))]
    fn from(event: Event) -> EventParts {
        match event {
            Event::Started => put_together(Event::STARTED, 0, 0),
            Event::MainFeedOn => put_together(Event::MAINFEEDON, 0, 0),
            Event::PowerOn { mask } => put_together(Event::POWERON, mask, 0),
            Event::PowerOff { mask } => put_together(Event::POWEROFF, mask, 0),
            Event::HoldEnter => put_together(Event::HOLDENTER, 0, 0),
            Event::HoldExit => put_together(Event::HOLDEXIT, 0, 0),
            Event::SaaEnter => put_together(Event::SAAENTER, 0, 0),
            Event::SaaExit => put_together(Event::SAAEXIT, 0, 0),
            Event::LoadShed => put_together(Event::LOADSHED, 0, 0),
            Event::NoOp => put_together(Event::NOOP, 0, 0),
            Event::CalStart => put_together(Event::CALSTART, 0, 0),
            Event::CalAbort => put_together(Event::CALABORT, 0, 0),
            Event::CalOther => put_together(Event::CALOTHER, 0, 0),
            Event::LpaStart { run } => put_together(Event::LPASTART, run, 0),
            Event::LpaStop => put_together(Event::LPASTOP, 0, 0),
            Event::LpaOther => put_together(Event::LPAOTHER, 0, 0),
            Event::TooStart { run, dwell } => put_together(Event::TOOSTART, run, dwell),
            Event::TooAbort => put_together(Event::TOOABORT, 0, 0),
            Event::TooExpired { armed } => put_together(Event::TOOEXPIRED, armed, 0),
            Event::CalStatus { good } => put_together(Event::CALSTATUS, u32::from(good), 0),
            Event::CalComplete => put_together(Event::CALCOMPLETE, 0, 0),
            Event::LpaStatus { good } => put_together(Event::LPASTATUS, u32::from(good), 0),
            Event::LpaComplete => put_together(Event::LPACOMPLETE, 0, 0),
        }
    }
}

impl TryFrom<EventParts> for Event {
    type Error = NoEvent;

    ghost try_from_gives = { λ parts found. found ≡ event_of parts };

    #[tactic(auto, unfolding(crate::specs::Event::event_of))]
    fn try_from(parts: EventParts) -> Result<Event, NoEvent> {
        let code = parts.code;
        let a = parts.a;
        let b = parts.b;
        if parts.zero != 0 {
            return Err(NoEvent);
        }
        match code {
            Event::STARTED => bare(Event::Started, a, b),
            Event::MAINFEEDON => bare(Event::MainFeedOn, a, b),
            Event::POWERON => single(Event::PowerOn { mask: a }, b),
            Event::POWEROFF => single(Event::PowerOff { mask: a }, b),
            Event::HOLDENTER => bare(Event::HoldEnter, a, b),
            Event::HOLDEXIT => bare(Event::HoldExit, a, b),
            Event::SAAENTER => bare(Event::SaaEnter, a, b),
            Event::SAAEXIT => bare(Event::SaaExit, a, b),
            Event::LOADSHED => bare(Event::LoadShed, a, b),
            Event::NOOP => bare(Event::NoOp, a, b),
            Event::CALSTART => bare(Event::CalStart, a, b),
            Event::CALABORT => bare(Event::CalAbort, a, b),
            Event::CALOTHER => bare(Event::CalOther, a, b),
            Event::LPASTART => single(Event::LpaStart { run: a }, b),
            Event::LPASTOP => bare(Event::LpaStop, a, b),
            Event::LPAOTHER => bare(Event::LpaOther, a, b),
            Event::TOOSTART => Ok(Event::TooStart { run: a, dwell: b }),
            Event::TOOABORT => bare(Event::TooAbort, a, b),
            Event::TOOEXPIRED => single(Event::TooExpired { armed: a }, b),
            Event::CALSTATUS => single(Event::CalStatus { good: flag::of(a)? }, b),
            Event::CALCOMPLETE => bare(Event::CalComplete, a, b),
            Event::LPASTATUS => single(Event::LpaStatus { good: flag::of(a)? }, b),
            Event::LPACOMPLETE => bare(Event::LpaComplete, a, b),
            _ => Err(NoEvent),
        }
    }
}

fn put_together(code: u16, a: u32, b: u32) -> EventParts
    ensures { result ≡ event_parts code a b }
{
    EventParts {
        code,
        zero: 0,
        a,
        b,
    }
}

fn bare(event: Event, a: u32, b: u32) -> Result<Event, NoEvent>
    ensures { result ≡ bare_event event a b }
{
    if a == 0 {
        single(event, b)
    } else {
        Err(NoEvent)
    }
}

fn single(event: Event, b: u32) -> Result<Event, NoEvent>
    ensures { result ≡ single_event event b }
{
    if b == 0 { Ok(event) } else { Err(NoEvent) }
}
