// A spelling read octet by octet, escapes undone on the way.
#![tactic(auto)]

ghost use Rattle.std.specs.Prelude.{◌≤◌, length};
ghost use Rattle.spelling.specs.Inner.Escapes.{half_value};

use crate::escapes::{combine, encode_first, escape_point, six_bits, unit_of, waiting};

// Where in a spelling we are, between characters: a first half that stands directly before, if there is one; and of the code point
// that the last escape said, how many octets are still to come.
#[derive(Drop)]
pub(crate) struct Cursor<'a> {
    pub(crate) text: &'a [u8],
    pub(crate) at: usize,
    half: Option<u32>,
    point: u32,
    left: u8,
    ghost at_bound: { at ≤ length text.now },
    ghost half_bound: { half_value half ≤ 56319 },
    ghost left_bound: { left ≤ 3 },
}

impl<'a> Cursor<'a> {
    ghost use Rattle.std.specs.Prelude.{◌≡◌, ◌+◌, ◌-◌, ◌*◌, ◌<◌, ◌∷◌, ◌++◌, drop, None, IfSome};
    ghost use Rattle.grammar.specs.Utf8.{encode};
    ghost use Rattle.spelling.specs.Inner.Escapes.{undo_at};
    ghost use Rattle.spelling.specs.Inner.Cursors.{rest, size, Gives};

    // Between characters, no half before.
    pub(crate) fn new(text: &'a [u8], at: usize) -> Self
        requires { at ≤ length text.now }
        ensures { rest result ≡ undo_at text.now None at }
    {
        Cursor {
            text,
            at,
            half: None,
            point: 0,
            left: 0,
        }
    }

    // The first octet of a code point; the others are then to come.
    fn begin(&mut self, n: u32) -> u8
        requires { n < 4194304 }
        ensures told { result ∷ rest self.new ≡ encode n ++ undo_at self.old.text.now self.old.half self.old.at }
        ensures size { size self.new ≤ 4 * (length self.old.text.now - self.old.at) + 3 }
    {
        let (first, left) = encode_first(n);
        self.point = n;
        self.left = left;
        first
    }

    // One of the octets of a code point that are still to come.
    fn pending(&mut self) -> u8
        requires { 0 < self.old.left }
        ensures told { rest self.old ≡ result ∷ rest self.new }
        ensures falls { size self.new < size self.old }
    {
        self.left -= 1;
        match self.left {
            0 => six_bits(self.point),
            1 => six_bits(self.point / 64),
            _ => six_bits(self.point / 4096),
        }
    }

    // The next octet. One that stands for itself is taken here, so that a loop has these by itself.
    #[inline(always)]
    #[tactic(auto, using(crate::proofs::Cursors::plain_octets))]
    pub(crate) fn next(&mut self) -> Option<u8>
        ensures { Gives self.old result self.new }
    {
        if 0 < self.left {
            return Some(self.pending());
        }
        if self.at == self.text.len() {
            return None;
        }
        let c = self.text[self.at];
        if c != b'\\' {
            self.at += 1;
            self.half = None;
            return Some(c);
        }
        self.escaped()
    }

    // The next octet, where an escape stands.
    fn escaped(&mut self) -> Option<u8>
        requires { self.old.left ≡ 0 }
        ensures { Gives self.old result self.new }
    {
        while self.at < self.text.len() {
            let s = self.text;
            let at = self.at;
            let c = s[at];
            if c != b'\\' {
                self.at = at + 1;
                self.half = None;
                return Some(c);
            }
            if s.len() - at < 2 {
                return None;
            }
            let e = s[at + 1];
            if e != b'u' {
                self.at = at + 2;
                self.half = None;
                return Some(escape_point(e));
            }
            if s.len() - at < 6 {
                return None;
            }
            let u = unit_of(s[at + 2], s[at + 3], s[at + 4], s[at + 5]);
            let half = self.half;
            self.at = at + 6;
            self.half = waiting(u);
            if let Some(h) = half {
                return Some(self.begin(combine(h, u)));
            }
            if self.half.is_none() {
                return Some(self.begin(u));
            }
        }
        None
    }

    // What is left of the text, where nothing is to come of an escape before, and the next octet stands for itself.
    pub(crate) fn ahead(&self) -> Option<&'a [u8]>
        ensures { IfSome result (λ t. (self.now.left ≡ 0) × (self.now.half ≡ None) × (t.now ≡ drop self.now.at self.now.text.now)) }
    {
        let text = &self.text[self.at..];
        if self.left == 0 && self.half.is_none() && text.first() != Some(&b'\\') {
            Some(text)
        } else {
            None
        }
    }
}
