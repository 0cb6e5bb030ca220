// Numbers in words: decimal, or 0x and hexadecimal digits, 0 to 4,294,967,295.
ghost use Rattle.std.specs.Prelude.{◌≤◌, ◌<◌, ◌≡◌, IfSome};
ghost use Rattle.terminal.specs.Numeral.{parsed, digits_of, digit_of, with_digit, capped};

// Why a word is no number, or none that there is room for.
#[derive(Clone, Copy, PartialEq, Eq)]
pub enum NoNumeral {
    NoNumber,
    TooLarge,
}

// One more than the largest number: it stands for every number that is too large. Such a number is read on to its end, since NoNumber
// comes before TooLarge, and `capped` is the definition.
const ABOVE: u64 = 4_294_967_296;

#[tactic(auto, unfolding(crate::specs::Numeral::parsed))]
pub fn parse(word: &[u8]) -> Result<u32, NoNumeral>
    ensures { result ≡ parsed word.now }
{
    match word {
        [b'0', b'x', _, ..] => digits(&word[2..], true),
        _ => digits(word, false),
    }
}

#[tactic(auto, unfolding(crate::specs::Numeral::digits_of))]
fn digits(word: &[u8], hex: bool) -> Result<u32, NoNumeral>
    ensures { result ≡ digits_of word.now hex }
{
    if word.is_empty() {
        return Err(NoNumeral::NoNumber);
    }
    let mut value: u64 = 0;
    for b in word {
        let Some(d) = digit(*b, hex) else {
            return Err(NoNumeral::NoNumber);
        };
        value = with_digit(value, hex, d);
    }
    if value == ABOVE {
        return Err(NoNumeral::TooLarge);
    }
    Ok(value as u32)
}

// The number that a byte stands for as a digit, if it is one.
#[tactic(auto, unfolding(crate::specs::Numeral::digit_of, crate::specs::Numeral::hex_letter))]
pub fn digit(b: u8, hex: bool) -> Option<u32>
    ensures value { result ≡ digit_of b hex }
    ensures upper_bound { IfSome result (λ d. d < 16) }
{
    char::from(b).to_digit(if hex { 16 } else { 10 })
}

// The number with a digit more.
#[tactic(auto, unfolding(crate::specs::Numeral::with_digit))]
fn with_digit(value: u64, hex: bool, d: u32) -> u64
    requires value_bound { value ≤ 4_294_967_296 }
    requires d_bound { d < 16 }
    ensures value { result ≡ with_digit value hex d }
    ensures upper_bound { result ≤ 4_294_967_296 }
{
    if hex {
        return capped(value * 16 + u64::from(d));
    }
    capped(value * 10 + u64::from(d))
}

#[tactic(auto, unfolding(crate::specs::Numeral::capped))]
fn capped(n: u64) -> u64
    ensures value { result ≡ capped n }
    ensures upper_bound { result ≤ 4_294_967_296 }
{
    n.min(ABOVE)
}
