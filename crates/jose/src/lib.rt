// What one recipient's parameters must be (RFC 7515, 7516 and 7518 as document 01 fixes them).
#![tactic(auto)]

pub mod content;
pub mod crit;
pub mod judge;
pub mod lists;
pub mod rules;

// How many octets the encrypted key, the initialization vector, the ciphertext and the tag have.
#[derive(Clone, Copy)]
pub struct Sizes {
    pub key: usize,
    pub iv: usize,
    pub ciphertext: usize,
    pub tag: usize,
}
