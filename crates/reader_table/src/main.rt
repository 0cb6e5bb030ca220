// Runs the ground reader on blocks that are written out byte for byte, each with its check worked out bit by bit: every row of its
// table, and every way in which a block's content can be wrong. A line for each string: the answer's number, and the reader after it.
#![tactic(auto)]

use kinds::{Mode, Task};
use reader::Reader;
use state::State;
use trial_blocks::{head, put, sealed};

fn main(rt: HostRuntime) {
    the_table(rt);
    readers_not_sound(rt);
    heads_that_are_wrong(rt);
    records_that_are_wrong(rt);
    events_that_are_wrong(rt);
    the_end_of_the_count(rt);
    both_tasks_busy(rt);
}

type Block = [u8; 512];

// Records, as they stand in a block.

type Bytes = [u8; 8];

const NO_RECORD: Bytes = [0, 0, 0, 0, 0, 0, 0, 0];

const PAST_ALL: Bytes = [0, 30, 0, 0, 0, 0, 0, 0];

const STARTED: Bytes = [0, 1, 0, 1, 0, 0, 0, 0];

const STARTED_V_1: Bytes = [0, 1, 0, 1, 0, 0, 0, 1];

const QUIESCENT: Bytes = [0, 1, 0, 2, 0, 0, 0, 0];

const PHYSICS: Bytes = [0, 1, 0, 5, 0, 0, 0, 0];

const OP_MODE_7: Bytes = [0, 1, 0, 7, 0, 0, 0, 0];

const MAIN_FEED: Bytes = [0, 20, 0, 0, 0, 0, 0, 0];

const CAL_ABORT: Bytes = [0, 9, 0, 0, 0, 0, 0, 0];

const LPA_START_8: Bytes = [0, 13, 0, 0, 0, 0, 0, 8];

const LPA_RUNNING: Bytes = [0, 3, 0, 1, 0, 0, 0, 0];

const LPA_COMP: Bytes = [0, 17, 0, 0, 0, 0, 0, 0];

const LPA_IDLE: Bytes = [0, 3, 0, 0, 0, 0, 0, 0];

const LCI_IDLE: Bytes = [0, 2, 0, 0, 0, 0, 0, 0];

const TIMER_600: Bytes = [0, 7, 0, 1, 0, 0, 2, 0x58];

const STATUS_0: Bytes = [0, 29, 0, 0, 0, 0, 0, 0];

const STATUS_1: Bytes = [0, 29, 0, 0, 0, 0, 0, 1];

const STATUS_2: Bytes = [0, 29, 0, 0, 0, 0, 0, 2];

const STATUS_3: Bytes = [0, 29, 0, 1, 0, 0, 0, 3];

const STATUS_4: Bytes = [0, 29, 0, 0, 0, 0, 0, 4];

const STATUS_6: Bytes = [0, 29, 0, 1, 0, 0, 0, 6];

const STATUS_LAST: Bytes = [0, 29, 0, 0, 0xFF, 0xFF, 0xFF, 0xFF];

// Blocks ---------------------------------------------------------------------------------------------------------------------

// A block with these records from its first position on.
fn filled(block: Block, records: &[Bytes]) -> Block {
    records
        .iter()
        .enumerate()
        .fold(block, |so_far, (at, record)| put(so_far, at, *record))
}

// Block 0: STARTED, MAINFEEDON and LPASTART 8, an acquisition that is running at its end.
fn block_0() -> Block {
    sealed(filled(
        head(0, 9, 0),
        &[
            STARTED,
            STATUS_1,
            MAIN_FEED,
            QUIESCENT,
            STATUS_2,
            LPA_START_8,
            LPA_RUNNING,
            PHYSICS,
            STATUS_3,
        ],
    ))
}

// Block 1: LPACOMPLETE, the end of the acquisition and the return to QUIESCENT.
fn block_1() -> Block {
    sealed(filled(head(1, 4, 3), &[LPA_COMP, LPA_IDLE, QUIESCENT, STATUS_4]))
}

// Last spring's block: the end of the acquisition is in it, and the return to QUIESCENT and the STATUS are not.
fn last_spring() -> Block {
    sealed(filled(head(1, 2, 3), &[LPA_COMP, LPA_IDLE]))
}

// A block with the number past which there is none.
fn the_last() -> Block {
    let mut b = filled(head(0xFF, 1, 0), &[STATUS_1]);
    b[4..7].fill(0xFF);
    sealed(b)
}

// The table ------------------------------------------------------------------------------------------------------------------

// Blocks that come damaged, from elsewhere, out of order and twice, to one reader.
fn the_table(rt: HostRuntime) {
    let zero = block_0();
    let one = block_1();
    let mut longer = [0u8; 513];
    longer[..512].copy_from_slice(&zero);
    let mut flipped = zero;
    flipped[50] = 0x10;
    let mut other = zero;
    other[3] = 8;
    let other = sealed(other);
    let last = the_last();
    let cut = last_spring();
    let rows: [(&str, &[u8]); 12] = [
        ("empty string", b""),
        ("block 0 without its last byte", &zero[..511]),
        ("block 0 with a byte more", &longer),
        ("block 0 with a bit flipped", &flipped),
        ("block 0 of log 8", &other),
        ("block 1, too early", &one),
        ("block 4294967295", &last),
        ("block 0", &zero),
        ("block 0 again", &zero),
        ("last spring's block", &cut),
        ("block 1", &one),
        ("block 1 again", &one),
    ];
    let mut reader = Reader::fresh(7);
    for (name, string) in rows {
        reader = show(rt, name, reader, string);
    }
}

// Readers that cannot have come about: more blocks than events, more than were heard of, and a state that is not sound.
fn readers_not_sound(rt: HostRuntime) {
    let idle = State::fresh().with_mode(Mode::Physics);
    for (name, reader) in [
        (
            "a reader with next 1 at count 0",
            reader(State::fresh(), 1, 1),
        ),
        (
            "a reader with heard below next",
            reader(State::rebooted(1), 1, 0),
        ),
        ("a reader in PHYSICS with LPA IDLE", reader(idle, 0, 0)),
    ] {
        show(rt, name, reader, &block_0());
    }
}

fn reader(state: State, next: u32, heard: u32) -> Reader {
    Reader {
        number: 7,
        state,
        next,
        heard,
    }
}

// Content --------------------------------------------------------------------------------------------------------------------

// Blocks that are still without their check, each to a fresh reader.
fn fresh_reads(rt: HostRuntime, blocks: &[(&'static str, Block)]) {
    for &(name, block) in blocks {
        show(rt, name, Reader::fresh(7), &sealed(block));
    }
}

fn heads_that_are_wrong(rt: HostRuntime) {
    let more = put(filled(head(0, 1, 0), &[STATUS_1]), 61, STATUS_2);
    fresh_reads(
        rt,
        &[
            ("used 0", head(0, 0, 0)),
            ("used 63", filled(head(0, 63, 0), &[STATUS_1])),
            ("count before 1", filled(head(0, 1, 1), &[STATUS_2])),
            ("bytes beyond used", more),
        ],
    );
}

fn records_that_are_wrong(rt: HostRuntime) {
    fresh_reads(
        rt,
        &[
            ("code 0", filled(head(0, 2, 0), &[NO_RECORD, STATUS_1])),
            ("code 30", filled(head(0, 2, 0), &[PAST_ALL, STATUS_1])),
            ("OPMODE 7", filled(head(0, 2, 0), &[OP_MODE_7, STATUS_1])),
            (
                "OPMODE 1, v 1",
                filled(head(0, 2, 0), &[STARTED_V_1, STATUS_1]),
            ),
            ("OPMODE 1", filled(head(0, 2, 0), &[STARTED, STATUS_1])),
        ],
    );
}

// Nine records and a STATUS are an event, ten and a STATUS are none.
fn events_that_are_wrong(rt: HostRuntime) {
    let ten = put(filled(head(0, 10, 0), &[CAL_ABORT; 9]), 9, STATUS_1);
    let eleven = put(filled(head(0, 11, 0), &[CAL_ABORT; 10]), 10, STATUS_1);
    fresh_reads(
        rt,
        &[
            ("10 records", ten),
            ("11 records", eleven),
            ("STATUS 2 first", filled(head(0, 1, 0), &[STATUS_2])),
            (
                "STATUS 1 twice",
                filled(head(0, 2, 0), &[STATUS_1, STATUS_1]),
            ),
            (
                "no STATUS last",
                filled(head(0, 2, 0), &[STATUS_1, STARTED]),
            ),
            (
                "PHYSICS with LPA IDLE",
                filled(head(0, 2, 0), &[PHYSICS, STATUS_1]),
            ),
        ],
    );
}

// The last event has the number 4294967295. Past it nothing is closed, and no timer is counted beyond it.
fn the_end_of_the_count(rt: HostRuntime) {
    let one = filled(late(1, 0xFE), &[STATUS_LAST]);
    let more = filled(late(3, 0xFE), &[STATUS_LAST, TIMER_600, STATUS_0]);
    let past = filled(late(1, 0xFF), &[STATUS_0]);
    for (name, count, block) in [
        ("the last event", 4294967294, one),
        ("a timer past the last event", 4294967294, more),
        ("an event past the last", 4294967295, past),
    ] {
        show(
            rt,
            name,
            reader(State::rebooted(count), 0, 0),
            &sealed(block),
        );
    }
}

// The head of a block 0 before which nearly all events are closed: only the last byte of their number is to be said.
fn late(used: u8, low: u8) -> Block {
    let mut b = head(0, used, low);
    b[10..13].fill(0xFF);
    b
}

// A calibration that a hold stopped and that has not ended. A log of the base may have physics started then, which is wrong here. Only
// the state after the STATUS is looked at, not those between two records.
fn both_tasks_busy(rt: HostRuntime) {
    let started = filled(
        head(1, 4, 5),
        &[LPA_START_8, LPA_RUNNING, PHYSICS, STATUS_6],
    );
    let ended = filled(
        head(1, 5, 5),
        &[LPA_START_8, LPA_RUNNING, LCI_IDLE, PHYSICS, STATUS_6],
    );
    for (name, lpa, block) in [
        ("physics started while LCI is STOPPING", Task::Idle, started),
        (
            "the same, with LCI IDLE before the STATUS",
            Task::Idle,
            ended,
        ),
        ("a reader with both tasks STOPPING", Task::Stopping, ended),
    ] {
        let state = State::rebooted(5)
            .with_mode(Mode::Quiescent)
            .with_lci(Task::Stopping)
            .with_lpa(lpa);
        show(rt, name, reader(state, 1, 1), &sealed(block));
    }
}

// Lines ----------------------------------------------------------------------------------------------------------------------

// What a reader makes of a string, to standard output, which the gate compares.
fn show(rt: HostRuntime, name: &str, reader: Reader, string: &[u8]) -> Reader {
    let read = reader.read(string);
    let r = read.reader;
    let s = r.state;
    let answer = u16::from(read.answer);
    let behind = yes_or_no(r.behind());
    let mode = u16::from(s.mode);
    let lci = u16::from(s.lci);
    let lpa = u16::from(s.lpa);
    let saa = yes_or_no(s.saa);
    let awaited = yes_or_no(s.lpa_awaited);
    let too = u16::from(s.too);
    let _ = print!(rt;
        "{name}: answer {answer}; next {}, heard {}, behind {behind}; ",
        r.next, r.heard
    );
    let _ = print!(rt; "mode {mode}, lci {lci}, lpa {lpa}, saa {saa}, lpa awaited {awaited}, ");
    let _ = println!(rt; "too {too}, armed {}, count {}", s.armed, s.count);
    r
}

// Three lines, as in `manager_table`: a public one would need a contract and an edit.
fn yes_or_no(yes: bool) -> &'static str {
    if yes { "yes" } else { "no" }
}
