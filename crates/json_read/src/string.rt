// Strings (RFC 8259 section 7), with the rule on halves of surrogate pairs. Runs of plain octets are passed over in blocks.
ghost use Rattle.std.specs.Prelude.{◌≡◌, ◌+◌, ◌^◌, ◌≤◌, ◌<◌, true, false, not, drop, [], ◌∷◌};
ghost use Rattle.grammar.specs.Grammar.{among, is_unescaped, is_escape, is_hex};
ghost use Rattle.grammar.specs.Strings.{hex_digit, is_high, is_low};
ghost use Rattle.grammar.specs.Reader.{octet_at, skip, between, escaping, digit, after_unit, scan_string, string_at};
ghost use Rattle.json_read.specs.Inner.Ends.{ends_of, hex_at, Small, resumed, Beyond, escape_of};

use crate::Position;
use blocks::Kind;

// What an escape gives: the position after it, and whether it is a first half that waits for its second.
#[derive(Clone, Copy)]
pub struct Escape {
    pub next: Position,
    pub waits: bool,
}

// One digit more of \u: the position after it and what the digits say.
#[derive(Clone, Copy)]
pub struct Hex {
    pub next: Position,
    pub value: u32,
}

// What may follow a backslash, but for u.
fn is_escape(c: u16) -> bool
    ensures { result ≡ is_escape c }
{
    (c == 34)
        | ((c == 92)
            | ((c == 47)
                | ((c == 98) | ((c == 102) | ((c == 110) | ((c == 114) | ((c == 116) | false)))))))
}

fn is_letter_of_hex(c: u16) -> bool
    ensures { result ≡ among (65 ∷ 66 ∷ 67 ∷ 68 ∷ 69 ∷ 70 ∷ 97 ∷ 98 ∷ 99 ∷ 100 ∷ 101 ∷ 102 ∷ []) c }
{
    (c == 65)
        | ((c == 66)
            | ((c == 67)
                | ((c == 68)
                    | ((c == 69)
                        | ((c == 70)
                            | ((c == 97)
                                | ((c == 98)
                                    | ((c == 99)
                                        | ((c == 100) | ((c == 101) | ((c == 102) | false)))))))))))
}

// A hexadecimal digit.
fn is_hex(c: u16) -> bool
    ensures { result ≡ is_hex c }
{
    crate::is_digit(c) | is_letter_of_hex(c)
}

// The value of a hexadecimal digit.
fn hex_digit(c: u16) -> u32
    requires { is_hex c ≡ true }
    ensures { (result ≡ hex_digit c) × (result < 16) }
{
    if c <= 57 {
        return c as u32 - 48;
    }
    if c <= 70 {
        return c as u32 - 55;
    }
    c as u32 - 87
}

fn is_low(u: u32) -> bool
    ensures { result ≡ is_low u }
{
    (56320 <= u) & (u <= 57343)
}

fn is_high(u: u32) -> bool
    ensures { result ≡ is_high u }
{
    (55296 <= u) & (u <= 56319)
}

// What the digits of \u that end before p do, after a first half or not.
fn after_unit(next: Position, half: bool, u: u32) -> Option<Escape>
    ensures { result ≡ escape_of next (after_unit half u) }
{
    let low = is_low(u);
    if half {
        if low {
            return Some(Escape { next, waits: false });
        }
        return None;
    }
    if low {
        return None;
    }
    let waits = is_high(u);
    Some(Escape { next, waits })
}

// An octet that does not stand for itself in a string.
#[derive(Clone, Copy)]
struct Stop;

impl Kind for Stop {
    ghost has = { λ kind c. not (is_unescaped c) };

    fn has(self, c: u8) -> bool {
        (c < 32) | (c == b'"') | (c == b'\\')
    }
}

impl Position {
    // One hexadecimal digit more, behind those that say x.
    fn hex(self, s: &[u8], x: u32) -> Option<Hex>
        requires { x < 16 ^ 3 }
        ensures value { result ≡ hex_at s.now self.at x }
        ensures small { Small x result }
    {
        let c = self.peek(s);
        if !is_hex(c) {
            return None;
        }
        let next = self.step(s);
        let value = x * 16 + hex_digit(c);
        Some(Hex { next, value })
    }

    // The four digits of \u that begin here, after a first half or not.
    fn unit(self, s: &[u8], half: bool) -> Option<Escape>
        ensures result_value { resumed s.now result ≡ scan_string (digit half 3 0) (drop self.at s.now) self.at }
        ensures beyond { Beyond self.at result }
    {
        let first = self.hex(s, 0)?;
        let second = first.next.hex(s, first.value)?;
        let third = second.next.hex(s, second.value)?;
        let last = third.next.hex(s, third.value)?;
        after_unit(last.next, half, last.value)
    }

    // An escape whose backslash stands before, after a first half or not.
    fn escape(self, s: &[u8], half: bool) -> Option<Escape>
        ensures result_value { resumed s.now result ≡ scan_string (escaping half) (drop self.at s.now) self.at }
        ensures beyond { Beyond self.at result }
    {
        let c = self.peek(s);
        if c == 117 {
            return self.step(s).unit(s, half);
        }
        if !is_escape(c) {
            return None;
        }
        if half {
            return None;
        }
        let next = self.step(s);
        Some(Escape { next, waits: false })
    }

    // Past the octets here that stand for themselves.
    fn skip_plain(self, s: &[u8]) -> Position
        ensures { result.at ≡ skip is_unescaped s.now self.at }
    {
        Position {
            at: blocks::seek::<Stop, 64>(Stop, s, self.at),
        }
    }

    // Past them, unless a first half waits.
    fn skip_unless(self, s: &[u8], half: bool) -> Position
        ensures at_value { scan_string (between half) (drop result.at s.now) result.at ≡ scan_string (between half) (drop self.at s.now) self.at }
        ensures at_le_at { (self.at ≤ result.at) × (half ≡ false → is_unescaped (octet_at s.now result.at) ≡ false) }
    {
        if half {
            return self;
        }
        self.skip_plain(s)
    }

    // A string that begins here.
    pub(crate) fn string(self, s: &[u8]) -> Option<Position>
        ensures { result ≡ ends_of (string_at s.now self.at) }
    {
        if self.peek(s) != 34 {
            return None;
        }
        let mut at = self.step(s).at;
        let mut half = false;
        while at < s.len() {
            let p = Position { at }.skip_unless(s, half);
            let c = p.peek(s);
            if c == 34 {
                if half {
                    return None;
                }
                return Some(p.step(s));
            }
            if c != 92 {
                return None;
            }
            let escape = p.step(s).escape(s, half)?;
            at = escape.next.at;
            half = escape.waits;
        }
        None
    }
}
