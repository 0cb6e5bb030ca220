// No code: a pass computed from the bytes of the events to the answers of the reader, in specs/.
#![tactic(auto)]
