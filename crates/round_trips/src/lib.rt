// No code: what the compact writer writes reads back, and what is read as compact writes back.
#![tactic(auto)]
