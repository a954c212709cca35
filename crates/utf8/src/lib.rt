// UTF-8 (RFC 3629). Blocks of octets below 128 are passed over; any other block is walked, character by character, to its end.
#![tactic(auto)]

ghost use Rattle.std.specs.Prelude.{◌≡◌, ◌+◌, ◌≤◌, ◌<◌, ◌-◌, ◌∷◌, length, drop, replicate};
ghost use Rattle.grammar.specs.Utf8.{to, within, tail, utf8_after, utf8};
ghost use Rattle.utf8.specs.Inner.Utf8Parts.{onward, Reaches, Low};

// The highest octet, 0 of none; the compiler takes it sixteen at a time.
fn highest(block: &[u8]) -> u8
    ensures { result < 128 → Low block.now }
{
    let mut top: u8 = 0;
    for &b in block {
        top = top.max(b);
    }
    top
}

fn is_within(c: u8, low: u8, high: u8) -> bool
    ensures { result ≡ within (to low high) c }
{
    (low..=high).contains(&c)
}

// Past a character of N octets, of which the first is right: the second has a range of its own, the others that of UTF8-tail.
fn past<const N: usize>(s: &[u8], at: usize, low: u8, high: u8) -> Option<usize>
    requires here { at < length s.now }
    requires more { 2 ≤ N }
    ensures result_value { onward s.now result ≡ utf8_after (to low high ∷ replicate (N - 2) tail) (drop (at + 1) s.now) }
    ensures reaches { Reaches (at + 1) s.now result }
{
    if s.len() - at < N {
        return None;
    }
    let mut right = is_within(s[at + 1], low, high);
    for k in 2..N {
        right &= is_within(s[at + k], 0x80, 0xBF);
    }
    right.then_some(at + N)
}

// Past the character at a position: the rows of the grammar in their order. The first two are tested before the others, since the
// compiler makes a table of a match, which is slower for them.
#[tactic(auto, using(crate::proofs::Utf8Parts::character_rows))]
fn character(s: &[u8], at: usize) -> Option<usize>
    requires { at < length s.now }
    ensures result_value { onward s.now result ≡ utf8 (drop at s.now) }
    ensures reaches { Reaches (at + 1) s.now result }
{
    let c = s[at];
    if c < 0x80 {
        return Some(at + 1);
    }
    if matches!(c, 0xC2..=0xDF) {
        return past::<2>(s, at, 0x80, 0xBF);
    }
    match c {
        0xE0 => past::<3>(s, at, 0xA0, 0xBF),
        0xE1..=0xEC => past::<3>(s, at, 0x80, 0xBF),
        0xED => past::<3>(s, at, 0x80, 0x9F),
        0xEE..=0xEF => past::<3>(s, at, 0x80, 0xBF),
        0xF0 => past::<4>(s, at, 0x90, 0xBF),
        0xF1..=0xF3 => past::<4>(s, at, 0x80, 0xBF),
        0xF4 => past::<4>(s, at, 0x80, 0x8F),
        _ => None,
    }
}

// Past the characters that begin before `to`, where each is right.
fn walk(s: &[u8], from: usize, to: usize) -> Option<usize>
    requires { (from ≤ length s.now) × (to ≤ length s.now) }
    ensures result_value { onward s.now result ≡ utf8 (drop from s.now) }
    ensures reaches { Reaches to s.now result }
{
    let mut at = from;
    while at < to {
        at = character(s, at)?;
    }
    Some(at)
}

// Past a block of 64 octets, or the characters that begin in it.
fn block(s: &[u8], at: usize) -> Option<usize>
    requires { at + 64 ≤ length s.now }
    ensures result_value { onward s.now result ≡ utf8 (drop at s.now) }
    ensures reaches { Reaches (at + 64) s.now result }
{
    let e = at + 64;
    if highest(&s[at..e]) < 128 {
        return Some(e);
    }
    walk(s, at, e)
}

// Whether octets are well-formed.
pub fn utf8(s: &[u8]) -> bool
    ensures { result ≡ utf8 s.now }
{
    let n = s.len();
    let mut at: usize = 0;
    while 64 <= n - at {
        let Some(next) = block(s, at) else {
            return false;
        };
        at = next;
    }
    walk(s, at, n).is_some()
}
