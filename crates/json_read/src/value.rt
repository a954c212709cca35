// Values (RFC 8259 section 3): objects, arrays and what stands in them, down to so many levels.
ghost use Rattle.std.specs.Prelude.{◌≡◌};
ghost use Rattle.grammar.specs.Grammar.{curly, square};
ghost use Rattle.grammar.specs.Reader.{word_at, before_at, is_number_start, value_at, nested_within};
ghost use Rattle.json_read.specs.Inner.Ends.{ends_of, value_in, ends_of_kind, found_of};
ghost use Rattle.json_read.specs.Inner.Known.{Given, Known};

use crate::{Found, Position};

// What may begin a number: a minus or a digit.
fn is_number_start(c: u16) -> bool
    ensures { result ≡ is_number_start c }
{
    (c == 45) | crate::is_digit(c)
}

// The value of a kind that ends so.
fn of_kind(ends: Option<Position>, kind: u8) -> Option<Found>
    ensures { result ≡ ends_of_kind kind ends }
{
    let end = ends?;
    Some(Found { end, kind })
}

impl Position {
    // The octets of w, one after the other.
    fn word(self, s: &[u8], w: &[u8]) -> Option<Position>
        ensures { result ≡ ends_of (word_at w.now s.now self.at) }
    {
        let mut p = self;
        let mut k: usize = 0;
        while k < w.len() {
            if p.peek(s) != w[k] as u16 {
                return None;
            }
            p = p.step(s);
            k += 1;
        }
        Some(p)
    }

    // A value that is neither an object nor an array: one of no levels. This and `value` are compiled into their callers: an
    // `Option<Found>` that is handed on in memory is copied with its padding, in parts that overlap, and the processor waits for these
    // longer than a short value takes to read.
    #[inline(always)]
    fn scalar(self, s: &[u8]) -> Option<Found>
        ensures { result ≡ found_of (value_at 0 s.now self.at) }
    {
        let c = self.peek(s);
        if c == 34 {
            return of_kind(self.string(s), 2);
        }
        if c == 116 {
            return of_kind(self.word(s, b"true"), 4);
        }
        if c == 102 {
            return of_kind(self.word(s, b"false"), 5);
        }
        if c == 110 {
            return of_kind(self.word(s, b"null"), 6);
        }
        if is_number_start(c) {
            return of_kind(self.number(s), 3);
        }
        None
    }

    // A member's name and its colon, up to its value.
    fn name(self, s: &[u8]) -> Option<Position>
        ensures { result ≡ ends_of (value_in (before_at curly s.now self.at)) }
    {
        let name = self.string(s)?;
        let colon = name.skip_space(s);
        if colon.peek(s) != 58 {
            return None;
        }
        Some(colon.step(s).skip_space(s))
    }

    // A value that begins here.
    #[cycle(array_object_value)]
    #[inline(always)]
    pub fn value(self, s: &[u8], levels: u32) -> Option<Found>
        ensures { result ≡ found_of (value_at levels s.now self.at) }
    {
        let c = self.peek(s);
        if c == 123 {
            return self.step(s).object(s, levels);
        }
        if c == 91 {
            return self.step(s).array(s, levels);
        }
        self.scalar(s)
    }

    // An object, past its brace. A text has no more members than octets.
    #[cycle(array_object_value)]
    fn object(self, s: &[u8], levels: u32) -> Option<Found>
        ensures { result ≡ found_of (nested_within levels curly s.now self.at) }
    {
        if levels == 0 {
            return None;
        }
        let first = self.skip_space(s);
        if first.peek(s) == 125 {
            let end = first.step(s);
            return Some(Found { end, kind: 0 });
        }
        let mut p = first;
        let mut left = s.len();
        while 0 < left {
            let begin = p.name(s)?;
            let inner = begin.value(s, levels - 1)?;
            let after = inner.end.skip_space(s);
            let c = after.peek(s);
            if c == 125 {
                let end = after.step(s);
                return Some(Found { end, kind: 0 });
            }
            if c != 44 {
                return None;
            }
            p = after.step(s).skip_space(s);
            left -= 1;
        }
        None
    }

    // An array, past its bracket.
    #[cycle(array_object_value)]
    fn array(self, s: &[u8], levels: u32) -> Option<Found>
        ensures { result ≡ found_of (nested_within levels square s.now self.at) }
    {
        if levels == 0 {
            return None;
        }
        let first = self.skip_space(s);
        if first.peek(s) == 93 {
            let end = first.step(s);
            return Some(Found { end, kind: 1 });
        }
        let mut p = first;
        let mut left = s.len();
        while 0 < left {
            let inner = p.value(s, levels - 1)?;
            let after = inner.end.skip_space(s);
            let c = after.peek(s);
            if c == 93 {
                let end = after.step(s);
                return Some(Found { end, kind: 1 });
            }
            if c != 44 {
                return None;
            }
            p = after.step(s).skip_space(s);
            left -= 1;
        }
        None
    }

    // A value that begins here, in a text that reads where a bracket opens: of an object or an array the end is sought.
    fn known(self, s: &[u8], levels: u32) -> Option<Found>
        requires { Known levels s.now self.at }
        ensures { result ≡ found_of (value_at levels s.now self.at) }
    {
        let c = self.peek(s);
        if c == 123 {
            let inside = self.step(s);
            let at = skip::past(s, inside.at);
            return Some(Found {
                end: Position { at },
                kind: 0,
            });
        }
        if c == 91 {
            let inside = self.step(s);
            let at = skip::past(s, inside.at);
            return Some(Found {
                end: Position { at },
                kind: 1,
            });
        }
        self.value(s, levels)
    }

    // The same value, sought or read.
    pub(crate) fn value_in(self, s: &[u8], levels: u32, judged: bool) -> Option<Found>
        requires { Given judged (Known levels s.now self.at) }
        ensures { result ≡ found_of (value_at levels s.now self.at) }
    {
        if judged {
            return self.known(s, levels);
        }
        self.value(s, levels)
    }
}
