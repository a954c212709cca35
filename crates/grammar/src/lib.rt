// No code: RFC 8259's grammar, a reader of it as functions of positions, and that the reader decides the grammar.
#![tactic(auto)]
