// The mode rules of the instrument as a whole, and what all rules ask of a state and share (Mode rules).
#![tactic(auto, using(draft::specs::DraftLaws::emitting))]

pub mod conditions;
pub mod instrument;
