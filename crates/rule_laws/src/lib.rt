// No code: the laws of the rules, in specs/. They are all that the log, the reader and the great theorem may use of the mode rules.
#![tactic(auto)]
