// Parts of a text by their places, and the next octet of a kind. What each function answers stands in specs/Parts.
#![tactic(auto)]

ghost use Rattle.std.specs.Prelude.{◌≡◌, ◌≤◌, max, length, eqb};
ghost use Rattle.parts.specs.Parts.{part, part_at, seek, holds};

use blocks::Kind;

// The part of a text at a place: document 01's empty part where the place does not fit, at the text's start.
pub fn part(s: &[u8], start: usize, len: usize) -> &[u8]
    ensures octets { result.now ≡ part s.now start len }
    ensures place { result.ref_ptr ≡ part_at s.entry start len }
{
    let n = s.len();
    if n < start {
        return &s[..0];
    }
    if n - start < len {
        return &s[..0];
    }
    let end = start + len;
    &s[start..end]
}

// One octet, as a kind that is sought.
#[derive(Clone, Copy)]
struct Octet(u8);

impl Kind for Octet {
    ghost has = { λ kind c. eqb c kind.0 };

    fn has(self, c: u8) -> bool {
        c == self.0
    }
}

// The first position, not before `at`, where c stands, or the text's end.
pub fn seek(s: &[u8], at: usize, c: u8) -> usize
    ensures value { result ≡ seek c s.now at }
    ensures lower_bound { (at ≤ result) × (result ≤ max at (length s.now)) }
{
    blocks::seek::<Octet, 192>(Octet(c), s, at)
}

// Whether c stands in a text.
pub fn holds(s: &[u8], c: u8) -> bool
    ensures { result ≡ holds c s.now }
{
    seek(s, 0, c) < s.len()
}
