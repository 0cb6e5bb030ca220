// Every event in every state: whether it is heard, its rule, its STATUS (Mode rules, Records).
#![tactic(auto)]

ghost use Rattle.std.specs.Prelude.{◌≡◌};
ghost use Rattle.rules.specs.Rule.{decide};
ghost use Rattle.rules.specs.Rules.{rule_of, unheard, verdict_of};
ghost use Rattle.rules.specs.Ruling.{ruled_as, ruling_of};

use draft::{Ruling, refused, with_status};
use events::Event;
use kinds::{Mode, Status};
use rules::conditions::in_mode;
use rules::instrument::{
    hold_enter, hold_exit, load_shed, main_feed_on, no_op, power_off, power_on, saa_enter,
    saa_exit, started,
};
use state::State;
use task_rules::calibration::{cal_abort, cal_complete, cal_other, cal_start, cal_status};
use task_rules::physics::{lpa_complete, lpa_other, lpa_start, lpa_status, lpa_stop};
use too_rules::{too_abort, too_expired, too_start};

// What the rules say of an event in a state: its status, the state after it, and its records, the closing STATUS last. In a sound
// state whose count is below its end they all have room.
#[tactic(auto, unfolding(rules::specs::Ruling::ruling_of))]
pub fn ruled(state: State, event: Event) -> Ruling
    ensures { result ≡ ruling_of state event }
{
    let said = heard(state, event);
    with_status(said, state::one_more(state.count))
}

#[tactic(auto, unfolding(rules::specs::Rules::verdict_of))]
fn heard(s: State, event: Event) -> Ruling
    ensures { result ≡ ruled_as s (verdict_of s event) }
{
    if unheard(s, event) {
        return refused(s, Status::NotRun);
    }
    by_rule(s, event)
}

#[tactic(auto, unfolding(rules::specs::Rules::unheard))]
fn unheard(s: State, event: Event) -> bool
    ensures { result ≡ unheard s event }
{
    in_mode(s, Mode::Boot) & !event.is_started()
}

#[tactic(auto, unfolding(rules::specs::Rules::rule_of))]
fn by_rule(s: State, event: Event) -> Ruling
    ensures { result ≡ ruled_as s (decide (rule_of s event)) }
{
    match event {
        Event::Started => started(s),
        Event::MainFeedOn => main_feed_on(s),
        Event::PowerOn { mask } => power_on(s, mask),
        Event::PowerOff { mask } => power_off(s, mask),
        Event::HoldEnter => hold_enter(s),
        Event::HoldExit => hold_exit(s),
        Event::SaaEnter => saa_enter(s),
        Event::SaaExit => saa_exit(s),
        Event::LoadShed => load_shed(s),
        Event::NoOp => no_op(s),
        Event::CalStart => cal_start(s),
        Event::CalAbort => cal_abort(s),
        Event::CalOther => cal_other(s),
        Event::LpaStart { run } => lpa_start(s, run),
        Event::LpaStop => lpa_stop(s),
        Event::LpaOther => lpa_other(s),
        Event::TooStart { run, dwell } => too_start(s, run, dwell),
        Event::TooAbort => too_abort(s),
        Event::TooExpired { armed } => too_expired(s, armed),
        Event::CalStatus { good } => cal_status(s, good),
        Event::CalComplete => cal_complete(s),
        Event::LpaStatus { good } => lpa_status(s, good),
        Event::LpaComplete => lpa_complete(s),
    }
}
