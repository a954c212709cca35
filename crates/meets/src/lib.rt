// No code: what a message has to meet, stated over the grammar, and that the reader's tests decide it.
#![tactic(auto)]
