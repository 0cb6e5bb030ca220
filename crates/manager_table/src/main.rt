// Runs the manager on sequences that fill its log to the record, on flushes, and on every refusal in its order, with 0xAA in every
// lent byte. A line for each operation: the answer's number, the log and the count after it, and what stayed as it was; and a line
// for each block that was written, compared with one that is put together by hand with its check worked out bit by bit.
#![tactic(auto)]

use blocks::Head;
use events::Event;
use kinds::{Mode, Task};
use manager::{Answered, Core, Manager};
use state::State;
use trial_blocks::{head, put, sealed};

fn main(rt: HostRuntime) {
    filling(rt);
    several(rt);
    flushing(rt);
    the_end_of_the_count(rt);
    orders(rt);
    events_refused(rt);
    logs_refused(rt);
    flushes_refused(rt);
    a_calibration_still_stopping(rt);
}

// Blocks by hand -------------------------------------------------------------------------------------------------------------

type Block = [u8; 512];

// OPMODE 1 and STATUS 0, 1.
fn started(used: u8) -> Block {
    let b = put(head(0, used, 0), 0, [0, 1, 0, 1, 0, 0, 0, 0]);
    put(b, 1, [0, 29, 0, 0, 0, 0, 0, 1])
}

// MAINFEED, OPMODE 2 and STATUS 0, 2 at a position.
fn fed(block: Block, at: usize) -> Block {
    [
        [0, 20, 0, 0, 0, 0, 0, 0],
        [0, 1, 0, 2, 0, 0, 0, 0],
        [0, 29, 0, 0, 0, 0, 0, 2],
    ]
    .iter()
    .zip(at..)
    .fold(block, |so_far, (record, at)| put(so_far, at, *record))
}

// STARTED, MAINFEEDON and the NOOPs before the event of a number: STATUS 0, n stands at n + 2.
fn quiet(used: u8, end: u8) -> Block {
    let b = (3..end).fold(fed(started(used), 2), |so_far, n| {
        put(so_far, usize::from(n) + 2, [0, 29, 0, 0, 0, 0, 0, n])
    });
    sealed(b)
}

// The records of an open block with the STATUS 0 of event 1 and no other.
fn one_status() -> [u8; 496] {
    let mut records = [0; 496];
    records[1] = 29;
    records[7] = 1;
    records
}

// Managers -------------------------------------------------------------------------------------------------------------------

fn fresh() -> Manager {
    Manager::fresh(7)
}

// STARTED, MAINFEEDON and NOOPs: 5 records and one for each NOOP.
fn quiescent(noops: u32) -> Manager {
    let fed = after(after(fresh(), Event::Started), Event::MainFeedOn);
    (0..noops).fold(fed, |manager, _| after(manager, Event::NoOp))
}

fn after(manager: Manager, event: Event) -> Manager {
    manager
        .step(&layout::event_bytes(event), &mut [0xAA; 512])
        .manager
}

fn made(state: State, block: u32, used: u16, before: u32, records: [u8; 496]) -> Manager {
    let head = Head {
        number: 7,
        block,
        used,
        before,
    };
    Manager {
        core: Core { state, head },
        records,
    }
}

// Sequences ------------------------------------------------------------------------------------------------------------------

// A block filled to its last record, and one event more.
fn filling(rt: HostRuntime) {
    let m = step(rt, "STARTED", fresh(), Event::Started, started(2));
    step(rt, "MAINFEEDON", m, Event::MainFeedOn, started(2));
    let b = quiet(62, 60);
    let m = step(rt, "61 used, NOOP", quiescent(56), Event::NoOp, b);
    let m = step(rt, "62 used, NOOP", m, Event::NoOp, b);
    step(rt, "1 used, NOOP", m, Event::NoOp, b);
}

// TOOSTART has 6 records: at 56 used they are the last, at 57 and at 58 they begin the next block.
fn several(rt: HostRuntime) {
    let too = Event::TooStart { run: 7, dwell: 600 };
    for (name, noops, block) in [
        ("56 used, TOOSTART", 51, quiet(56, 54)),
        ("57 used, TOOSTART", 52, quiet(57, 55)),
        ("58 used, TOOSTART", 53, quiet(58, 56)),
    ] {
        step(rt, name, quiescent(noops), too, block);
    }
}

fn flushing(rt: HostRuntime) {
    let first = sealed(started(2));
    let m = flush(rt, "flush of a fresh log", fresh(), first);
    let m = flush(rt, "flush of 2 records", after(m, Event::Started), first);
    let m = flush(rt, "flush again", m, first);
    let second = sealed(fed(head(1, 3, 1), 0));
    let m = step(rt, "MAINFEEDON after it", m, Event::MainFeedOn, second);
    let m = flush(rt, "flush of 3 records", m, second);
    step(rt, "NOOP after it", m, Event::NoOp, second);
    flush(rt, "flush of 62 records", quiescent(57), quiet(62, 60));
}

// The last event has the number 4294967295; it is refused by the rules (NOTRUN) and logged. Past it only a flush goes.
fn the_end_of_the_count(rt: HostRuntime) {
    let state = State::rebooted(4294967294);
    let m = made(state, 0, 0, 4294967294, [0; 496]);
    let mut b = head(0, 1, 0xFE);
    b[10..13].fill(0xFF);
    let b = sealed(put(b, 0, [0, 29, 0, 3, 0xFF, 0xFF, 0xFF, 0xFF]));
    let m = step(rt, "the last event, NOOP in BOOT", m, Event::NoOp, b);
    let m = step(rt, "FULL, NOOP", m, Event::NoOp, b);
    let m = flush(rt, "FULL, flush", m, b);
    let m = flush(rt, "FULL, flush again", m, b);
    step(rt, "FULL, NOOP after the flush", m, Event::NoOp, b);
}

// Refusals -------------------------------------------------------------------------------------------------------------------

// The order: each line mends what the line before it was refused for.
fn orders(rt: HostRuntime) {
    let mut records = [0; 496];
    records[1] = 29;
    let full = State::rebooted(4294967295);
    let unsound = full.with_mode(Mode::Physics);
    let wrong = made(unsound, 0, 1, 4294967294, records);
    let right = made(full, 0, 1, 4294967294, records);
    let bad = [0, 24, 0, 0, 0, 0, 0, 0, 0, 0, 0, 0];
    let noop = layout::event_bytes(Event::NoOp);
    for (name, lent, manager, event) in [
        ("511 lent, bad event, unsound, full", 511, wrong, bad),
        ("512 lent, bad event, unsound, full", 512, wrong, bad),
        ("512 lent, NOOP, unsound, full", 512, wrong, noop),
        ("512 lent, NOOP, sound, full", 512, right, noop),
        ("511 lent, NOOP, sound, full", 511, right, noop),
        ("512 lent, bad event, sound, full", 512, right, bad),
    ] {
        ask(rt, name, manager, Asked::Step(&event), lent, None);
    }
}

fn events_refused(rt: HostRuntime) {
    let noop = &layout::event_bytes(Event::NoOp);
    for (name, lent, event) in [
        ("511 lent, NOOP, fresh", 511, noop.as_slice()),
        ("513 lent, NOOP, fresh", 513, noop),
        ("no bytes", 512, &[]),
        ("NOOP of 11 bytes", 512, &[0, 10, 0, 0, 0, 0, 0, 0, 0, 0, 0]),
        ("code 0", 512, &[0, 0, 0, 0, 0, 0, 0, 0, 0, 0, 0, 0]),
        ("zero field 1", 512, &[0, 10, 0, 1, 0, 0, 0, 0, 0, 0, 0, 0]),
        ("NOOP, b 1", 512, &[0, 10, 0, 0, 0, 0, 0, 0, 0, 0, 0, 1]),
        ("CALSTATUS 2", 512, &[0, 20, 0, 0, 0, 0, 0, 2, 0, 0, 0, 0]),
    ] {
        ask(rt, name, fresh(), Asked::Step(event), lent, None);
    }
}

// Logs that cannot have come about, at count 1, and first one that can.
fn logs_refused(rt: HostRuntime) {
    let records = one_status();
    let mut next = records;
    next[8] = 1;
    let mut last = records;
    last[495] = 1;
    let noop = layout::event_bytes(Event::NoOp);
    for (name, block, used, before, records) in [
        ("a sound log", 0, 1, 0, records),
        ("used 63", 0, 63, 0, records),
        ("block number over count before", 1, 1, 0, records),
        ("count before over count", 0, 1, 2, records),
        ("used 0, counts unequal", 0, 0, 0, [0; 496]),
        ("used 1, counts equal", 0, 1, 1, records),
        ("the first byte beyond used", 0, 1, 0, next),
        ("the last byte beyond used", 0, 1, 0, last),
    ] {
        let manager = made(State::rebooted(1), block, used, before, records);
        ask(rt, name, manager, Asked::Step(&noop), 512, None);
    }
}

fn flushes_refused(rt: HostRuntime) {
    let wrong = made(State::fresh().with_mode(Mode::Physics), 0, 0, 0, [0; 496]);
    let right = after(fresh(), Event::Started);
    for (name, lent, manager) in [
        ("flush, 511 lent, unsound, empty", 511, wrong),
        ("flush, 512 lent, unsound, empty", 512, wrong),
        ("flush, 512 lent, sound, empty", 512, fresh()),
        ("flush, 511 lent, 2 records", 511, right),
    ] {
        ask(rt, name, manager, Asked::Flush, lent, Some([0; 512]));
    }
}

// Physics is not started beside a calibration that stops; both tasks busy is a state that cannot have come about.
fn a_calibration_still_stopping(rt: HostRuntime) {
    let lci = State::rebooted(1)
        .with_mode(Mode::Quiescent)
        .with_lci(Task::Stopping);
    let one = made(lci, 0, 0, 1, [0; 496]);
    let both = made(lci.with_lpa(Task::Stopping), 0, 0, 1, [0; 496]);
    let event = layout::event_bytes(Event::LpaStart { run: 8 });
    let start = Asked::Step(&event);
    ask(rt, "LCI STOPPING, LPASTART", one, start, 512, None);
    ask(rt, "LCI and LPA STOPPING, LPASTART", both, start, 512, None);
    flush(rt, "LCI and LPA STOPPING, flush", both, [0; 512]);
}

// Operations -----------------------------------------------------------------------------------------------------------------

// What is asked of a manager: the bytes of an event, or a flush. No closure: `ask` would have to know that it may be called.
#[derive(Clone, Copy)]
enum Asked<'a> {
    Step(&'a [u8]),
    Flush,
}

// The most bytes that are lent.
const LENT_MOST: usize = 513;

fn step(rt: HostRuntime, name: &str, manager: Manager, event: Event, expected: Block) -> Manager {
    let bytes = layout::event_bytes(event);
    ask(rt, name, manager, Asked::Step(&bytes), 512, Some(expected))
}

fn flush(rt: HostRuntime, name: &str, manager: Manager, expected: Block) -> Manager {
    ask(rt, name, manager, Asked::Flush, 512, Some(expected))
}

// The manager after it. A block that is written is shown where it is known which.
fn ask(
    rt: HostRuntime,
    name: &str,
    manager: Manager,
    asked: Asked,
    lent: usize,
    expected: Option<Block>,
) -> Manager {
    let mut bytes = [0xAA; LENT_MOST];
    let lent = &mut bytes[..lent.min(LENT_MOST)];
    let done = match asked {
        Asked::Step(event) => manager.step(event, lent),
        Asked::Flush => manager.flush(lent),
    };
    show(rt, name, manager, done, lent);
    if let Some(block) = expected
        && done.written
    {
        show_block(rt, lent, &block);
    }
    done.manager
}

// Lines, to standard output, which the gate compares -------------------------------------------------------------------------

fn show(rt: HostRuntime, name: &str, before: Manager, done: Answered<Manager>, lent: &[u8]) {
    let Core { state, head } = done.manager.core;
    let answer = u16::from(done.answer);
    let written = yes_or_no(done.written);
    let same_lent = yes_or_no(lent.iter().all(|byte| *byte == 0xAA));
    let same_manager = yes_or_no(before == done.manager);
    let _ = print!(rt; "{name}: answer {answer}; written {written}; ");
    let _ = print!(rt;
        "block {}, used {}, count before {}, ",
        head.block, head.used, head.before
    );
    let _ = print!(rt; "count {}; ", state.count);
    let _ = println!(rt; "lent bytes as before {same_lent}, manager as before {same_manager}");
}

fn show_block(rt: HostRuntime, block: &[u8], by_hand: &[u8]) {
    let head = blocks::read_head(block);
    let intact = yes_or_no(blocks::intact(block));
    let same = yes_or_no(block == by_hand);
    let _ = print!(rt;
        "  the block: intact {intact}; log {}, block {}, ",
        head.number, head.block
    );
    let _ = println!(rt;
        "used {}, count before {}; as by hand {same}",
        head.used, head.before
    );
}

// Three lines, as in `reader_table`: a public one would need a contract and an edit.
fn yes_or_no(yes: bool) -> &'static str {
    if yes { "yes" } else { "no" }
}
