// An event's 12 bytes (Events).
ghost use Rattle.std.specs.Prelude.{◌≡◌};
ghost use Rattle.layout.specs.Event.{read_event, event_bytes};

use crate::bytes::bytes_at;
use events::{Event, EventParts, NoEvent};

// The bytes of an event.
pub const EVENT: usize = 12;

const CODE_AT: usize = 0;

const ZERO_AT: usize = 2;

const A_AT: usize = 4;

const B_AT: usize = 8;

// The event of a string, whatever its length and content.
#[tactic(auto, unfolding(crate::specs::Event::read_event, crate::specs::Event::event_parts_at), using(crate::specs::BytesLaws::u16_read, crate::specs::BytesLaws::u32_read))]
pub fn read_event(s: &[u8]) -> Result<Event, NoEvent>
    ensures { result ≡ read_event s.now }
{
    if s.len() != EVENT {
        return Err(NoEvent);
    }
    Event::try_from(EventParts {
        code: u16::from_be_bytes(bytes_at(s, CODE_AT)),
        zero: u16::from_be_bytes(bytes_at(s, ZERO_AT)),
        a: u32::from_be_bytes(bytes_at(s, A_AT)),
        b: u32::from_be_bytes(bytes_at(s, B_AT)),
    })
}

#[tactic(auto, unfolding(crate::specs::Event::event_bytes, crate::specs::Event::event_parts_bytes, crate::specs::Bytes::two, crate::specs::Bytes::four))]
pub fn event_bytes(event: Event) -> [u8; EVENT]
    ensures { result ≡ event_bytes event }
{
    // Byte by byte, since arrays are not joined without a copy of each.
    let parts = EventParts::from(event);
    let code = parts.code.to_be_bytes();
    let zero = parts.zero.to_be_bytes();
    let a = parts.a.to_be_bytes();
    let b = parts.b.to_be_bytes();
    [
        code[0], code[1], zero[0], zero[1], a[0], a[1], a[2], a[3], b[0], b[1], b[2], b[3],
    ]
}
