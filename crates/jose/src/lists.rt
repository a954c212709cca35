// Our lists of names, contents first, as `names` reads them: how many, the length of each, then the names. Where one is
// used it is proved to be the list of the names that the definition has, by computing.

// The registered names.
pub const REGISTERED: [u8; 86] = *b"\x14\
    \x03\x03\x03\x03\x03\x03\x03\x03\x03\x08\x03\x03\x04\
    \x03\x03\x03\x02\x03\x03\x03\
    alg\
    enc\
    zip\
    jku\
    jwk\
    kid\
    x5u\
    x5c\
    x5t\
    x5t#S256\
    typ\
    cty\
    crit\
    epk\
    apu\
    apv\
    iv\
    tag\
    p2s\
    p2c";

// The numbers of those that the rules name, counted from 1; ZIP is the compression parameter.
pub const ALG: u32 = 1;

pub const ENC: u32 = 2;

pub const ZIP: u32 = 3;

pub const JWK: u32 = 5;

pub const X5C: u32 = 8;

pub const CRIT: u32 = 13;
