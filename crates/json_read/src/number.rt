// Numbers (RFC 8259 section 6), part by part.
ghost use Rattle.std.specs.Prelude.{◌≡◌};
ghost use Rattle.grammar.specs.Grammar.{is_digit, is_minus, is_plus_minus};
ghost use Rattle.grammar.specs.Reader.{perhaps_at, digits_at, int_at, fraction_at, exponent_at, number_at};
ghost use Rattle.json_read.specs.Inner.Ends.{ends_of};

use crate::Position;

impl Position {
    // One digit or more.
    fn digits(self, s: &[u8]) -> Option<Position>
        ensures { result ≡ ends_of (digits_at is_digit s.now self.at) }
    {
        if crate::is_digit(self.peek(s)) {
            Some(self.step(s).skip_digits(s))
        } else {
            None
        }
    }

    // A zero, or a digit from 1 to 9 and any digits.
    fn int(self, s: &[u8]) -> Option<Position>
        ensures { result ≡ ends_of (int_at s.now self.at) }
    {
        if self.peek(s) == 48 {
            Some(self.step(s))
        } else {
            self.digits(s)
        }
    }

    // A point and digits, or nothing.
    fn fraction(self, s: &[u8]) -> Option<Position>
        ensures { result ≡ ends_of (fraction_at s.now self.at) }
    {
        if self.peek(s) == 46 {
            self.step(s).digits(s)
        } else {
            Some(self)
        }
    }

    // Past a plus or a minus, if one stands here.
    fn skip_sign(self, s: &[u8]) -> Position
        ensures { result.at ≡ perhaps_at is_plus_minus s.now self.at }
    {
        let c = self.peek(s);
        if (c == 43) | ((c == 45) | false) {
            self.step(s)
        } else {
            self
        }
    }

    // Past a minus, if one stands here.
    fn skip_minus(self, s: &[u8]) -> Position
        ensures { result.at ≡ perhaps_at is_minus s.now self.at }
    {
        let c = self.peek(s);
        if (c == 45) | false {
            self.step(s)
        } else {
            self
        }
    }

    // e or E, perhaps a sign, and digits; or nothing.
    fn exponent(self, s: &[u8]) -> Option<Position>
        ensures { result ≡ ends_of (exponent_at s.now self.at) }
    {
        let c = self.peek(s);
        if (c == 101) | ((c == 69) | false) {
            self.step(s).skip_sign(s).digits(s)
        } else {
            Some(self)
        }
    }

    // A number that begins here.
    pub(crate) fn number(self, s: &[u8]) -> Option<Position>
        ensures { result ≡ ends_of (number_at s.now self.at) }
    {
        let whole = self.skip_minus(s).int(s)?;
        let part = whole.fraction(s)?;
        part.exponent(s)
    }
}
