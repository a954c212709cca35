// No code: what the JSON writer writes is read back, and it refuses nothing exactly where what it would write is accepted.
#![tactic(auto)]
