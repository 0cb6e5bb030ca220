// The rules of the instrument as a whole: start, power, hold, SAA, load shed (Mode rules). A rule is a function, as the book has it, also
// where two differ in one record: each has its definition.
ghost use Rattle.std.specs.Prelude.{◌≡◌};
ghost use Rattle.rules.specs.Rule.{decide};
ghost use Rattle.rules.specs.Rules.{
  started,
  main_feed_on,
  configured,
  power_on,
  power_off,
  hold_enter,
  hold_exit,
  saa_enter,
  saa_exit,
  load_shed,
  shedding,
  no_op,
};
ghost use Rattle.draft.specs.Draft.{emits};
ghost use Rattle.rules.specs.Ruling.{ruled_as};

use crate::conditions::{end_too, in_mode, lpa_is, stop_calibration, stop_physics};
use draft::{Draft, Ruling, blank, refused};
use kinds::{Mode, Status, Task};
use records::Record;
use state::State;

pub fn started(s: State) -> Ruling
    ensures { result ≡ ruled_as s (decide (started s)) }
{
    if !in_mode(s, Mode::Boot) {
        return refused(s, Status::BadMode);
    }
    blank(s)
        .emit(Record::OpMode(Mode::Terminal))
        .done(Status::Success)
}

pub fn main_feed_on(s: State) -> Ruling
    ensures { result ≡ ruled_as s (decide (main_feed_on s)) }
{
    if !in_mode(s, Mode::Terminal) {
        return refused(s, Status::BadMode);
    }
    blank(s)
        .emit(Record::MainFeed)
        .emit(Record::OpMode(Mode::Quiescent))
        .done(Status::Success)
}

fn configured(s: State) -> Record
    ensures { result ≡ configured s }
{
    if s.saa {
        Record::SaaCfg
    } else {
        Record::NonSaaCfg
    }
}

pub fn power_on(s: State, mask: u32) -> Ruling
    ensures { result ≡ ruled_as s (decide (power_on s mask)) }
{
    if !in_mode(s, Mode::Quiescent) {
        return refused(s, Status::BadMode);
    }
    if !ranges::mask_in_range(mask) {
        return refused(s, Status::BadParam);
    }
    blank(s)
        .emit(Record::PowerOn { mask })
        .emit(configured(s))
        .done(Status::Success)
}

pub fn power_off(s: State, mask: u32) -> Ruling
    ensures { result ≡ ruled_as s (decide (power_off s mask)) }
{
    if !in_mode(s, Mode::Quiescent) {
        return refused(s, Status::BadMode);
    }
    if !ranges::mask_in_range(mask) {
        return refused(s, Status::BadParam);
    }
    blank(s)
        .emit(Record::PowerOff { mask })
        .done(Status::Success)
}

pub fn hold_enter(s: State) -> Ruling
    ensures { result ≡ ruled_as s (decide (hold_enter s)) }
{
    let quiet = in_mode(s, Mode::Quiescent) | in_mode(s, Mode::Calibration);
    if !(quiet | in_mode(s, Mode::Physics) | in_mode(s, Mode::Too)) {
        return refused(s, Status::BadMode);
    }
    let draft = stop_calibration(s, blank(s));
    let draft = stop_physics(s, draft);
    let draft = end_too(s, draft);
    draft.emit(Record::OpMode(Mode::Hold)).done(Status::Success)
}

pub fn hold_exit(s: State) -> Ruling
    ensures { result ≡ ruled_as s (decide (hold_exit s)) }
{
    if !in_mode(s, Mode::Hold) {
        return refused(s, Status::BadMode);
    }
    blank(s)
        .emit(Record::OpMode(Mode::Quiescent))
        .done(Status::Success)
}

pub fn saa_enter(s: State) -> Ruling
    ensures { result ≡ ruled_as s (decide (saa_enter s)) }
{
    let wait = Record::Wait {
        seconds: ranges::WAIT_LONG,
    };
    stop_physics(s, blank(s).emit(Record::SaaChange(true)))
        .emit_if(lpa_is(s, Task::Running), wait)
        .emit_if(!in_mode(s, Mode::Terminal), Record::SaaCfg)
        .done(Status::Success)
}

pub fn saa_exit(s: State) -> Ruling
    ensures { result ≡ ruled_as s (decide (saa_exit s)) }
{
    blank(s)
        .emit(Record::SaaChange(false))
        .emit_if(!in_mode(s, Mode::Terminal), Record::NonSaaCfg)
        .done(Status::Success)
}

pub fn load_shed(s: State) -> Ruling
    ensures { result ≡ ruled_as s (decide (load_shed s)) }
{
    let alert = Record::Alert {
        number: ranges::ALERT_SHED,
    };
    let draft = stop_calibration(s, blank(s).emit(alert));
    let draft = stop_physics(s, draft);
    shed(draft).done(Status::Success)
}

fn shed(draft: Draft) -> Draft
    ensures { result ≡ emits draft shedding }
{
    let long = Record::Wait {
        seconds: ranges::WAIT_LONG,
    };
    let short = Record::Wait {
        seconds: ranges::WAIT_SHORT,
    };
    draft
        .emit(Record::LtcStop)
        .emit(long)
        .emit(Record::ShedBegin)
        .emit(Record::ShedEnd)
        .emit(Record::SiuReboot)
        .emit(short)
}

pub fn no_op(s: State) -> Ruling
    ensures { result ≡ ruled_as s (decide (no_op s)) }
{
    if in_mode(s, Mode::Hold) {
        return refused(s, Status::BadMode);
    }
    blank(s).done(Status::Success)
}
