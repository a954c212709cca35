// The members of an object as entries of a table, eight numbers each (origin, name start and length, value start and
// length, kind, which of some names it has, a fingerprint of what its name says): collected once, and asked many times.
#![tactic(auto)]

pub mod ask;
pub mod collect;
pub mod copy;
pub mod layout;
pub mod repeat;
pub mod table;
