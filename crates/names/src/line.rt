// A line of text read as an event: its name and its numbers, or raw and 24 hex digits.
ghost use Rattle.std.specs.Prelude.{◌≡◌};
ghost use Rattle.names.specs.Line.{line_of, given, words_in, number_of, expected_after, raw_line, raw_byte};

use crate::event_names::{event_code, event_numbers};
use crate::text::{after_separators, after_word, first_word, same_word};
use events::{Event, EventParts};
use layout::EVENT;
use terminal::NoNumeral;

// The hex digits of an event.
const DIGITS: usize = 2 * EVENT;

// What a line that cannot be read was expected to have: an event's name; after the name no number, one, two, a report's 1 or 0, or the
// digits of raw; or fewer bytes, which is an answer of those who keep only so many.
#[derive(Clone, Copy, PartialEq, Eq)]
pub enum Expected {
    Name,
    None,
    One,
    Two,
    Report,
    Raw,
    Short,
}

// The bytes of a line's event, if anything stands there.
#[tactic(auto, unfolding(crate::specs::Line::line_of, crate::specs::Line::named_line))]
pub fn read_line(text: &[u8]) -> Result<Option<[u8; EVENT]>, Expected>
    ensures { result ≡ line_of text.now }
{
    let start = after_separators(text);
    let name = first_word(start);
    if name.is_empty() {
        return Ok(None);
    }
    let rest = after_word(start);
    if same_word(name, b"RAW") {
        return Ok(Some(raw(rest).ok_or(Expected::Raw)?));
    }
    let code = event_code(name).ok_or(Expected::Name)?;
    Ok(Some(given(code, rest).ok_or(expected_after(code))?))
}

// The event of a code and of the numbers that stand after its name, if these are its numbers.
#[tactic(auto, unfolding(crate::specs::Line::given))]
fn given(code: u16, text: &[u8]) -> Option<[u8; EVENT]>
    ensures { result ≡ given code text.now }
{
    if words_in(text) != event_numbers(code) {
        return None;
    }
    let a = number_of(first_word(text)).ok()?;
    let b = number_of(first_word(after_word(text))).ok()?;
    let parts = EventParts {
        code,
        zero: 0,
        a,
        b,
    };
    let event = Event::try_from(parts).ok()?;
    Some(layout::event_bytes(event))
}

// How many words a text has that begins with one; 3 stands for more, as the definition has it.
#[tactic(auto, unfolding(crate::specs::Line::words_in))]
fn words_in(text: &[u8]) -> u8
    ensures { result ≡ words_in text.now }
{
    if text.is_empty() {
        return 0;
    }
    let second = after_word(text);
    if second.is_empty() {
        return 1;
    }
    if after_word(second).is_empty() { 2 } else { 3 }
}

// A number that is not given is 0.
#[tactic(auto, unfolding(crate::specs::Line::number_of))]
fn number_of(word: &[u8]) -> Result<u32, NoNumeral>
    ensures { result ≡ number_of word.now }
{
    if word.is_empty() {
        return Ok(0);
    }
    terminal::parse(word)
}

#[tactic(auto, unfolding(crate::specs::Line::expected_after))]
fn expected_after(code: u16) -> Expected
    ensures { result ≡ expected_after code }
{
    match code {
        Event::CALSTATUS | Event::LPASTATUS => Expected::Report,
        _ => match event_numbers(code) {
            0 => Expected::None,
            1 => Expected::One,
            _ => Expected::Two,
        },
    }
}

// The bytes as they are.
#[tactic(auto, unfolding(crate::specs::Line::raw_line))]
fn raw(text: &[u8]) -> Option<[u8; EVENT]>
    ensures { result ≡ raw_line text.now }
{
    let digits = first_word(text);
    if !after_word(text).is_empty() || digits.len() != DIGITS {
        return None;
    }
    let mut bytes = [0; EVENT];
    let (pairs, _) = digits.as_chunks::<2>();
    // The pairs by place and not by `zip`, since nothing is known of the bytes after a loop over a `zip` of `iter_mut`.
    for (k, byte) in bytes.iter_mut().enumerate() {
        let [high, low] = pairs[k];
        *byte = raw_byte(high, low)?;
    }
    Some(bytes)
}

// The byte of two hex digits.
#[tactic(auto, unfolding(crate::specs::Line::raw_byte))]
fn raw_byte(high: u8, low: u8) -> Option<u8>
    ensures { result ≡ raw_byte high low }
{
    let high = terminal::digit(high, true)?;
    let low = terminal::digit(low, true)?;
    Some((high * 16 + low) as u8)
}
