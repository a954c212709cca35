// JSON by RFC 8259, read in place: positions in a text, and readers that answer where a part ends. What each answers stands
// in specs/Reader.antt, which specs/Grammar.antt and proofs/Theorems.antt tie to the RFC's grammar.
#![tactic(auto)]

ghost use Rattle.std.specs.Prelude.{◌≡◌};
ghost use Rattle.grammar.specs.Grammar.{is_space, is_digit};
ghost use Rattle.grammar.specs.Reader.{octet_at, step, skip, skip_space, opens_object, read_text};
ghost use Rattle.json_read.specs.Inner.Ends.{found_of};

pub mod member;
mod number;
mod rows;
mod string;
mod value;

// A position in a text: it moves by methods that take it and give the next one.
#[derive(Clone, Copy)]
pub struct Position {
    pub at: usize,
}

// A value that a reader has found: the position after it and its kind (0 object, 1 array, 2 string, 3 number, 4 true, 5 false,
// 6 null).
#[derive(Clone, Copy)]
pub struct Found {
    pub end: Position,
    pub kind: u8,
}

// Space, tab, LF, CR.
fn is_space(c: u16) -> bool
    ensures { result ≡ is_space c }
{
    (c == 32) | ((c == 9) | ((c == 10) | ((c == 13) | false)))
}

// 0 to 9, listed as the definition lists them; the compiler makes a range of it.
fn is_digit(c: u16) -> bool
    ensures { result ≡ is_digit c }
{
    (c == 48)
        | ((c == 49)
            | ((c == 50)
                | ((c == 51)
                    | ((c == 52)
                        | ((c == 53)
                            | ((c == 54) | ((c == 55) | ((c == 56) | ((c == 57) | false)))))))))
}

impl Position {
    // The octet here; 256 at the end.
    pub(crate) fn peek(self, s: &[u8]) -> u16
        ensures { result ≡ octet_at s.now self.at }
    {
        let at = self.at;
        if at < s.len() { s[at] as u16 } else { 256 }
    }

    // One on, and no further than the end.
    pub(crate) fn step(self, s: &[u8]) -> Position
        ensures { result.at ≡ step s.now self.at }
    {
        let at = self.at;
        if at < s.len() {
            Position { at: at + 1 }
        } else {
            self
        }
    }

    // Past the space that stands here.
    pub fn skip_space(self, s: &[u8]) -> Position
        ensures { result.at ≡ skip_space s.now self.at }
    {
        let mut at = self.at;
        while at < s.len() {
            if !is_space(s[at] as u16) {
                return Position { at };
            }
            at += 1;
        }
        Position { at }
    }

    // Past the digits that stand here.
    pub(crate) fn skip_digits(self, s: &[u8]) -> Position
        ensures { result.at ≡ skip is_digit s.now self.at }
    {
        let mut at = self.at;
        while at < s.len() {
            if !is_digit(s[at] as u16) {
                return Position { at };
            }
            at += 1;
        }
        Position { at }
    }
}

// Whether the first octet that is not space is an opening curly bracket.
pub fn opens_object(s: &[u8]) -> bool
    ensures { result ≡ opens_object s.now }
{
    let start = Position { at: 0 };
    let first = start.skip_space(s);
    first.peek(s) == 123
}

// Whether a text is one object of so many levels and well-formed UTF-8: where the object ends, and its kind, 0.
pub fn judge(s: &[u8], levels: u32) -> Option<Found>
    ensures { result ≡ found_of (read_text levels s.now) }
{
    let first = Position { at: 0 }.skip_space(s);
    if first.peek(s) != 123 {
        return None;
    }
    if !utf8::utf8(s) {
        return None;
    }
    let outer = first.value(s, levels)?;
    if outer.end.skip_space(s).at != s.len() {
        return None;
    }
    Some(outer)
}
