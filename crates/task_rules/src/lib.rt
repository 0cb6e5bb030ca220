// The mode rules of the two tasks, calibration and physics (Mode rules). A rule is a function, as the book has it, also where two differ in
// a task or a record: each has its definition. What a rule chooses by one test, such as `aborted`, has a name, so that the rule has no
// branch of its own for it.
#![tactic(auto, using(draft::specs::DraftLaws::emitting))]

pub mod calibration;
pub mod physics;
