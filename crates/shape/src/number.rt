// The numbers of the known members (specs/Shape): their places in the list `MEMBERS`.
pub const PROTECTED: u32 = 1;

pub const UNPROTECTED: u32 = 2;

pub const HEADER: u32 = 3;

pub const ENCRYPTED_KEY: u32 = 4;

pub const RECIPIENTS: u32 = 5;

pub const IV: u32 = 6;

pub const AAD: u32 = 7;

pub const CIPHERTEXT: u32 = 8;

pub const TAG: u32 = 9;
