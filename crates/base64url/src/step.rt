// The step from one character to its six bits, and back. `value` and `character` are sums without a branch, so that the
// compiler does sixteen characters at a time; the table is for one character after the other.
ghost use Rattle.std.specs.Prelude.{◌≡◌, ◌≤◌, ◌<◌, cond, leb};
ghost use Rattle.base64url.specs.Base64url.{character, six_bits};
ghost use Rattle.base64url.specs.Inner.Step.{Tabled, near};

// The six bits of each octet as a character, or 64 (\x40): sixteen octets a row.
const SIX_BITS: [u8; 256] = *b"\
    \x40\x40\x40\x40\x40\x40\x40\x40\x40\x40\x40\x40\x40\x40\x40\x40\
    \x40\x40\x40\x40\x40\x40\x40\x40\x40\x40\x40\x40\x40\x40\x40\x40\
    \x40\x40\x40\x40\x40\x40\x40\x40\x40\x40\x40\x40\x40\x3e\x40\x40\
    \x34\x35\x36\x37\x38\x39\x3a\x3b\x3c\x3d\x40\x40\x40\x40\x40\x40\
    \x40\x00\x01\x02\x03\x04\x05\x06\x07\x08\x09\x0a\x0b\x0c\x0d\x0e\
    \x0f\x10\x11\x12\x13\x14\x15\x16\x17\x18\x19\x40\x40\x40\x40\x3f\
    \x40\x1a\x1b\x1c\x1d\x1e\x1f\x20\x21\x22\x23\x24\x25\x26\x27\x28\
    \x29\x2a\x2b\x2c\x2d\x2e\x2f\x30\x31\x32\x33\x40\x40\x40\x40\x40\
    \x40\x40\x40\x40\x40\x40\x40\x40\x40\x40\x40\x40\x40\x40\x40\x40\
    \x40\x40\x40\x40\x40\x40\x40\x40\x40\x40\x40\x40\x40\x40\x40\x40\
    \x40\x40\x40\x40\x40\x40\x40\x40\x40\x40\x40\x40\x40\x40\x40\x40\
    \x40\x40\x40\x40\x40\x40\x40\x40\x40\x40\x40\x40\x40\x40\x40\x40\
    \x40\x40\x40\x40\x40\x40\x40\x40\x40\x40\x40\x40\x40\x40\x40\x40\
    \x40\x40\x40\x40\x40\x40\x40\x40\x40\x40\x40\x40\x40\x40\x40\x40\
    \x40\x40\x40\x40\x40\x40\x40\x40\x40\x40\x40\x40\x40\x40\x40\x40\
    \x40\x40\x40\x40\x40\x40\x40\x40\x40\x40\x40\x40\x40\x40\x40\x40";

// The table, built anew at each call: so a decoding calls once and lends it.
pub(crate) fn table() -> [u8; 256]
    ensures { Tabled result }
{
    SIX_BITS
}

// The six bits of a character, or 64, by the table that the caller lends.
pub(crate) fn six_bits(table: &[u8; 256], c: u8) -> u8
    requires { Tabled table.now }
    ensures { result ≡ six_bits c }
{
    table[c as usize]
}

// A number where a test holds, else 0.
fn on(test: bool, a: u8) -> u8
    ensures value { result ≡ cond test a 0 }
    ensures upper_bound { result ≤ a }
{
    if test { a } else { 0 }
}

// The six bits of a character of the alphabet, modulo 64. The sum is not reduced, since who packs the values drops what
// is above the six bits.
pub(crate) fn value(c: u8) -> u8
    ensures { result ≡ near c }
{
    let d = c % 128;
    d + on(d < b'A', 5) + on(d < b'a', 6) + on(d == b'_', 33) + on(d == b'-', 13) + 57
}

// The character of a value below 64.
pub(crate) fn character(v: u8) -> u8
    requires { v < 64 }
    ensures { result ≡ character v }
{
    v + 71 + on(v == 63, 36) - on(v < 26, 6) - on(51 < v, 75) - on(v == 62, 13)
}

// Whether a character is outside the alphabet.
pub(crate) fn outside(c: u8) -> bool
    ensures { result ≡ leb 64 (six_bits c) }
{
    !(((b'a' <= c) & (c <= b'z'))
        | ((b'A' <= c) & (c <= b'Z'))
        | ((b'0' <= c) & (c <= b'9'))
        | (c == b'-')
        | (c == b'_'))
}
