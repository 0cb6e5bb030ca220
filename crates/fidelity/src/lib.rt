// No code: demand 3, in specs/. What the display shows is what the instrument did.
#![tactic(auto)]
