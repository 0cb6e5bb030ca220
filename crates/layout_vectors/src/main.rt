// Runs `layout` on a block, events and records that are written out by hand, byte for byte. A line for each comparison: what was
// found, and `same` or DIFFERENT with what was expected.
#![tactic(auto)]

use blocks::Head;
use events::{Event, EventParts, NoEvent};
use kinds::Status;
use records::{Record, Wrong};
use std::fmt::Display;

fn main(rt: HostRuntime) {
    writing(rt);
    reading(rt);
    heads(rt);
    events(rt);
    strings_refused(rt);
    fields_refused(rt);
    records(rt);
    records_with_a_value(rt);
    records_with_a_number(rt);
    records_of_timers(rt);
}

// Blocks ---------------------------------------------------------------------------------------------------------------------

// Log 0x01020304, block 5, 7 events before, and the records TOOTIMER 1, 86400 and STATUS 1, 8. They are two, whatever `used` says.
//
// The check is not worked out here: its bytes are Python's. This writes those for 2 used, which is the 0002 of the head:
//     import binascii
//     head, records = "01020304 00000005 0002 00000007", "0007000100015180 001d000100000008"
//     print("%04x" % binascii.crc_hqx(bytes.fromhex(head + records) + bytes(480), 0xFFFF))
fn by_hand(used: u8, check: [u8; 2]) -> [u8; 512] {
    let mut block = [0u8; 512];
    block[0] = 0x01;
    block[1] = 0x02;
    block[2] = 0x03;
    block[3] = 0x04;
    block[7] = 0x05;
    block[9] = used;
    block[13] = 0x07;
    block[15] = 0x07;
    block[17] = 0x01;
    block[19] = 0x01;
    block[20] = 0x51;
    block[21] = 0x80;
    block[23] = 0x1D;
    block[25] = 0x01;
    block[29] = 0x08;
    block[510] = check[0];
    block[511] = check[1];
    block
}

fn two_used() -> [u8; 512] {
    by_hand(2, [0x12, 0x66])
}

fn head() -> Head {
    Head {
        number: 0x01020304,
        block: 5,
        used: 2,
        before: 7,
    }
}

// The two records, as `layout` writes them, and zeros.
fn records_by_hand() -> [u8; 496] {
    let mut records = [0u8; 496];
    records[..8].copy_from_slice(&layout::record_bytes(Record::TooTimerStart { dwell: 86400 }));
    records[8..16].copy_from_slice(&layout::record_bytes(Record::Status {
        status: Status::PktSent,
        event: 8,
    }));
    records
}

fn writing(rt: HostRuntime) {
    let records = records_by_hand();
    let mut lent = [0xAAu8; 512];
    let written = blocks::write_block(head(), &records, &mut lent);
    compare(rt, "512 bytes lent, written", "yes", yes_or_no(written));
    compare(
        rt,
        "the block, as by hand",
        "yes",
        yes_or_no(lent == two_used()),
    );
    let mut short = [0xAAu8; 511];
    let written = blocks::write_block(head(), &records, &mut short);
    compare(rt, "511 bytes lent, written", "no", yes_or_no(written));
    compare(
        rt,
        "511 bytes lent, as before",
        "yes",
        yes_or_no(short == [0xAA; 511]),
    );
    compare(rt, "check, high byte", 0x12, lent[510]);
    compare(rt, "check, low byte", 0x66, lent[511]);
}

// A block is read as intact, with its records' length, or not. A block without its last byte is no block.
fn reading(rt: HostRuntime) {
    let whole = two_used();
    let mut flipped = whole;
    flipped[300] = 0x10;
    let rows: [(&str, &[u8], &str, usize); 6] = [
        ("used 2", &whole, "yes", 16),
        ("511 bytes", &whole[..511], "no", 0),
        ("a bit flipped", &flipped, "no", 0),
        ("used 0", &by_hand(0, [0x4B, 0x15]), "yes", 0),
        ("used 62", &by_hand(62, [0xF9, 0x22]), "yes", 496),
        ("used 63", &by_hand(63, [0x5D, 0x8B]), "yes", 0),
    ];
    for (name, block, intact, length) in rows {
        let _ = print!(rt; "{name}");
        compare(rt, ", intact", intact, yes_or_no(blocks::intact(block)));
        let _ = print!(rt; "{name}");
        compare(
            rt,
            ", length of the records",
            length,
            blocks::records(block).len(),
        );
    }
}

// The head of a block, and of a string that is too short for one.
fn heads(rt: HostRuntime) {
    let whole = blocks::read_head(&two_used());
    compare(rt, "log number", 16909060, whole.number);
    compare(rt, "block number", 5, whole.block);
    compare(rt, "records used", 2, whole.used);
    compare(rt, "count before", 7, whole.before);
    let short = blocks::read_head(&[0xFF; 13]);
    compare(rt, "13 bytes, log number", 0, short.number);
    compare(rt, "13 bytes, count before", 0, short.before);
}

// Events ---------------------------------------------------------------------------------------------------------------------

// Events, by their code.
fn events(rt: HostRuntime) {
    each_event(
        rt,
        &[
            (
                "TOOSTART 7, 600",
                &[0, 17, 0, 0, 0, 0, 0, 7, 0, 0, 2, 0x58],
                17,
            ),
            ("STARTED", &[0, 1, 0, 0, 0, 0, 0, 0, 0, 0, 0, 0], 1),
            ("CALSTATUS 1", &[0, 20, 0, 0, 0, 0, 0, 1, 0, 0, 0, 0], 20),
            ("LPACOMPLETE", &[0, 23, 0, 0, 0, 0, 0, 0, 0, 0, 0, 0], 23),
        ],
    );
    let bytes = layout::event_bytes(Event::TooStart { run: 7, dwell: 600 });
    compare(
        rt,
        "TOOSTART 7, 600, bytes as by hand",
        "yes",
        yes_or_no(bytes == [0, 17, 0, 0, 0, 0, 0, 7, 0, 0, 2, 0x58]),
    );
}

// Strings that are no event, by their length, their code and the zero field.
fn strings_refused(rt: HostRuntime) {
    each_event(
        rt,
        &[
            ("NOOP of 11 bytes", &[0, 10, 0, 0, 0, 0, 0, 0, 0, 0, 0], 0),
            (
                "NOOP of 13 bytes",
                &[0, 10, 0, 0, 0, 0, 0, 0, 0, 0, 0, 0, 0],
                0,
            ),
            ("code 0", &[0, 0, 0, 0, 0, 0, 0, 0, 0, 0, 0, 0], 0),
            ("code 24", &[0, 24, 0, 0, 0, 0, 0, 0, 0, 0, 0, 0], 0),
            (
                "NOOP little-endian",
                &[10, 0, 0, 0, 0, 0, 0, 0, 0, 0, 0, 0],
                0,
            ),
            (
                "NOOP, zero field 1",
                &[0, 10, 0, 1, 0, 0, 0, 0, 0, 0, 0, 0],
                0,
            ),
        ],
    );
}

// The same by a and b.
fn fields_refused(rt: HostRuntime) {
    each_event(
        rt,
        &[
            ("NOOP, a 1", &[0, 10, 0, 0, 0, 0, 0, 1, 0, 0, 0, 0], 0),
            ("LPASTART, b 1", &[0, 14, 0, 0, 0, 0, 0, 8, 0, 0, 0, 1], 0),
            ("CALSTATUS 2", &[0, 20, 0, 0, 0, 0, 0, 2, 0, 0, 0, 0], 0),
            ("LPASTATUS 2", &[0, 22, 0, 0, 0, 0, 0, 2, 0, 0, 0, 0], 0),
        ],
    );
}

type EventRow<'a> = (&'a str, &'a [u8], u16);

// Strings, each with the code of its event.
fn each_event(rt: HostRuntime, rows: &[EventRow]) {
    for &(name, string, code) in rows {
        compare(rt, name, code, event_code(string));
    }
}

// The code of a string's event, and 0 where it is none, as the lines have it.
fn event_code(string: &[u8]) -> u16 {
    match layout::read_event(string) {
        Ok(event) => EventParts::from(event).code,
        Err(NoEvent) => 0,
    }
}

// Records --------------------------------------------------------------------------------------------------------------------

// Records that are right, and with what is wrong first: by the code, and d before v.
fn records(rt: HostRuntime) {
    each_record(
        rt,
        &[
            ("code 0", &[0, 0, 0, 0, 0, 0, 0, 0], Some(Wrong::Code)),
            ("code 30", &[0, 30, 0, 0, 0, 0, 0, 0], Some(Wrong::Code)),
            ("OPMODE 6", &[0, 1, 0, 6, 0, 0, 0, 0], None),
            ("OPMODE 7", &[0, 1, 0, 7, 0, 0, 0, 0], Some(Wrong::D)),
            ("OPMODE 7, v 1", &[0, 1, 0, 7, 0, 0, 0, 1], Some(Wrong::D)),
            ("OPMODE 6, v 1", &[0, 1, 0, 6, 0, 0, 0, 1], Some(Wrong::V)),
        ],
    );
}

// By the value in v.
fn records_with_a_value(rt: HostRuntime) {
    each_record(
        rt,
        &[
            (
                "POWERON, mask 0",
                &[0, 21, 0, 0, 0, 0, 0, 0],
                Some(Wrong::V),
            ),
            ("POWERON, mask 1", &[0, 21, 0, 0, 0, 0, 0, 1], None),
            (
                "POWEROFF, mask 0",
                &[0, 22, 0, 0, 0, 0, 0, 0],
                Some(Wrong::V),
            ),
            ("WAIT 1", &[0, 27, 0, 0, 0, 0, 0, 1], None),
            ("WAIT 2", &[0, 27, 0, 0, 0, 0, 0, 2], Some(Wrong::V)),
            ("WAIT 5", &[0, 27, 0, 0, 0, 0, 0, 5], None),
        ],
    );
}

// By the number in d, and a record that is cut.
fn records_with_a_number(rt: HostRuntime) {
    each_record(
        rt,
        &[
            ("ALERT 0x346", &[0, 28, 0x03, 0x46, 0, 0, 0, 0], None),
            (
                "ALERT 0x347",
                &[0, 28, 0x03, 0x47, 0, 0, 0, 0],
                Some(Wrong::D),
            ),
            ("STATUS 11", &[0, 29, 0, 11, 0, 0, 0, 8], None),
            ("STATUS 12", &[0, 29, 0, 12, 0, 0, 0, 8], Some(Wrong::D)),
            ("7 bytes", &[0, 29, 0, 11, 0, 0, 0], Some(Wrong::Code)),
        ],
    );
}

// The dwell is 1 to 86400, and a timer that is stopped has none.
fn records_of_timers(rt: HostRuntime) {
    each_record(
        rt,
        &[
            ("TOOTIMER 1, 0", &[0, 7, 0, 1, 0, 0, 0, 0], Some(Wrong::V)),
            ("TOOTIMER 1, 1", &[0, 7, 0, 1, 0, 0, 0, 1], None),
            ("TOOTIMER 1, 86400", &[0, 7, 0, 1, 0, 1, 0x51, 0x80], None),
            (
                "TOOTIMER 1, 86401",
                &[0, 7, 0, 1, 0, 1, 0x51, 0x81],
                Some(Wrong::V),
            ),
            ("TOOTIMER 0", &[0, 7, 0, 0, 0, 0, 0, 0], None),
            ("TOOTIMER 0, 1", &[0, 7, 0, 0, 0, 0, 0, 1], Some(Wrong::V)),
            ("TOOTIMER 2", &[0, 7, 0, 2, 0, 0, 0, 0], Some(Wrong::D)),
        ],
    );
}

type RecordRow<'a> = (&'a str, &'a [u8], Option<Wrong>);

// Strings, each with what is wrong with its record first.
fn each_record(rt: HostRuntime, rows: &[RecordRow]) {
    for &(name, string, wrong) in rows {
        compare(
            rt,
            name,
            said(wrong),
            said(layout::read_record(string, 0).err()),
        );
    }
}

// What is wrong with a record first, if anything is.
fn said(wrong: Option<Wrong>) -> &'static str {
    match wrong {
        None => "right",
        Some(Wrong::Code) => "wrong code",
        Some(Wrong::D) => "wrong d",
        Some(Wrong::V) => "wrong v",
    }
}

// Lines ----------------------------------------------------------------------------------------------------------------------

// What was found, and how it compares, to standard output, which the gate compares.
fn compare<T: PartialEq + Display + Copy>(rt: HostRuntime, name: &str, expected: T, found: T) {
    let _ = if found == expected {
        println!(rt; "{name}: {found}, same")
    } else {
        println!(rt; "{name}: {found}, DIFFERENT, expected {expected}")
    };
}

// Three lines, as in the other tables: a public one would need a contract and a wrong program.
fn yes_or_no(yes: bool) -> &'static str {
    if yes { "yes" } else { "no" }
}
