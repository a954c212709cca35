// No code: what the list of differences between two accepted messages means, by what each of them meets.
#![tactic(auto)]
