// Runs `frame_check::check` on published vectors, and against a way that takes one bit at a time, as the standard draws its
// encoder. A line for each comparison: the check that was found, and `same` or DIFFERENT with the one expected.
#![tactic(auto)]

ghost use Rattle.std.specs.Prelude.{◌≤◌, length};

use std::io;
use trial_blocks::bit_by_bit;

fn main(rt: HostRuntime) -> io::Result<()> {
    published(rt, "123456789", b"123456789", 0x29B1)?;
    published(rt, "00 00", &[0, 0], 0x1D0F)?;
    published(rt, "00 00 00", &[0, 0, 0], 0xCC9C)?;
    published(rt, "AB CD EF 01", &[0xAB, 0xCD, 0xEF, 0x01], 0x04A2)?;
    published(
        rt,
        "14 56 F8 9A 00 01",
        &[0x14, 0x56, 0xF8, 0x9A, 0x00, 0x01],
        0x7FD5,
    )?;
    published(rt, "no bytes", b"", 0xFFFF)?;
    compare(
        rt,
        "bit by bit, 123456789",
        0x29B1,
        bit_by_bit(b"123456789"),
    )?;
    let bytes = varied();
    lengths(rt, &bytes)?;
    compare(
        rt,
        "510 bytes",
        bit_by_bit(&bytes),
        frame_check::check(&bytes),
    )
}

// The check of a string whose check is published.
fn published(rt: HostRuntime, name: &str, string: &[u8], expected: u16) -> io::Result<()> {
    compare(rt, name, expected, frame_check::check(string))
}

// The first 1 to 40 of the bytes: no word to five, with each number of bytes after them.
fn lengths(rt: HostRuntime, bytes: &[u8]) -> io::Result<()>
    requires { 40 ≤ length bytes.now }
{
    for n in 1..41 {
        first(rt, bytes, n)?;
    }
    Ok(())
}

// The first n of the bytes, both ways.
fn first(rt: HostRuntime, bytes: &[u8], n: usize) -> io::Result<()>
    requires { n ≤ length bytes.now }
{
    let part = &bytes[..n];
    print!(rt; "{n}")?;
    compare(rt, " bytes", bit_by_bit(part), frame_check::check(part))
}

// One line: what was compared, and how it went.
fn compare(rt: HostRuntime, name: &str, expected: u16, found: u16) -> io::Result<()> {
    if found == expected {
        println!(rt; "{name}: {found:04x}, same")
    } else {
        println!(rt; "{name}: {found:04x}, DIFFERENT, expected {expected:04x}")
    }
}

// 510 bytes with no pattern that a shift would meet again.
fn varied() -> [u8; 510] {
    let mut bytes = [0u8; 510];
    let mut state: u32 = 1;
    for byte in &mut bytes {
        state = (state * 75 + 74) % 65537;
        *byte = (state % 256) as u8;
    }
    bytes
}
