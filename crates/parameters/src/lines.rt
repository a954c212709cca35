// Lines of a list of differences, put one behind the other.
ghost use Rattle.std.specs.Prelude.{◌≡◌, ◌∷◌, [], ◌++◌, ◌+◌, ◌*◌, ◌≤◌, ◌<◌, length};
ghost use Rattle.prelude.specs.Buffer.{written};
ghost use Rattle.parameters.specs.Lines.{missing, line, line_if, line_width, line_numbers, laid};
ghost use Rattle.parameters.specs.Inner.Puts.{kind_number, half_is, line_is};

use prelude::limits::{MOST_MEMBERS, MOST_RECIPIENTS};
use std::marker::Model;

// How many numbers a line has in a list.
pub const WIDTH: usize = 8;

// Lines are at most so many: seven of the whole message, one for each key, and for each recipient two for each of 96 parameters on the left
// and one for each on the right.
pub const MOST: usize = 7 + MOST_RECIPIENTS + MOST_RECIPIENTS * (9 * MOST_MEMBERS);

// What a line says (specs/Lines).
#[derive(Clone, Copy)]
#[repr(u8)]
pub enum Kind {
    Form,
    Recipients,
    Header,
    Iv,
    Aad,
    Ciphertext,
    Tag,
    Key,
    OnlyLeft,
    OnlyRight,
    Moved,
    Value,
}

impl Kind {
    // Its number in a list.
    fn number(self) -> u32
        ensures { result ≡ kind_number self }
    {
        match self {
            Kind::Form => 0,
            Kind::Recipients => 1,
            Kind::Header => 2,
            Kind::Iv => 3,
            Kind::Aad => 4,
            Kind::Ciphertext => 5,
            Kind::Tag => 6,
            Kind::Key => 7,
            Kind::OnlyLeft => 8,
            Kind::OnlyRight => 9,
            Kind::Moved => 10,
            Kind::Value => 11,
        }
    }
}

// One side of a line: a parameter's origin, and the start and the length of its value.
#[derive(Clone, Copy)]
pub struct Half {
    pub origin: u32,
    pub start: u32,
    pub len: u32,
}

// A side that is missing.
pub fn missing() -> Half
    ensures { half_is result ≡ missing }
{
    Half {
        origin: 0,
        start: 0,
        len: 0,
    }
}

#[derive(Clone, Copy)]
struct Line {
    kind: Kind,
    recipient: u32,
    left: Half,
    right: Half,
}

// The eight numbers of a line, written from a position on.
fn put_numbers(list: &mut [u32], from: usize, l: Line)
    requires { from + line_width ≤ length list.old }
    ensures { list.new ≡ written from (line_numbers (line_is l)) list.old }
{
    list[from] = l.kind.number();
    list[from + 1] = l.recipient;
    list[from + 2] = l.left.origin;
    list[from + 3] = l.left.start;
    list[from + 4] = l.left.len;
    list[from + 5] = l.right.origin;
    list[from + 6] = l.right.start;
    list[from + 7] = l.right.len;
}

// The lines that have been put; there is room for N.
#[derive(Drop)]
pub struct Lines<const N: usize> {
    lines: [Line; N],
    count: usize,
}

impl<const N: usize> Model for Lines<N> {
    ghost use Rattle.std.specs.Prelude.{◌≡◌, List, map, take, ◌≤◌, length};
    ghost use Rattle.parameters.specs.Lines.{Line};

    ghost Value = { List Line };

    ghost use Rattle.parameters.specs.Inner.Puts.{line_is};

    ghost view = { λ a. map line_is (take a.count a.lines) };

    ghost invariant = { λ a. (a.count ≤ N) × (length a.lines ≡ N) };
}

impl<const N: usize> Lines<N> {
    #[inline]
    pub fn new() -> Self
        ensures { result ≡ [] }
    {
        let none = Line {
            kind: Kind::Form,
            recipient: 0,
            left: missing(),
            right: missing(),
        };
        Lines {
            lines: [none; N],
            count: 0,
        }
    }

    // How many there are.
    pub fn len(&self) -> usize
        ensures { result ≡ length self.now }
    {
        let Lines { count: len, .. } = self;
        *len
    }

    // A line put behind the first ones.
    pub fn put(&mut self, kind: Kind, recipient: u32, left: Half, right: Half)
        requires { length self.old < N }
        ensures { self.new ≡ self.old ++ line (kind_number kind) recipient (half_is left) (half_is right) ∷ [] }
    {
        let Lines { lines, count } = self;
        lines[*count] = Line {
            kind,
            recipient,
            left,
            right,
        };
        *count += 1;
    }

    // The same where something holds; none where it does not.
    pub fn put_if(&mut self, test: bool, kind: Kind, recipient: u32, left: Half, right: Half)
        requires { length self.old < N }
        ensures { self.new ≡ self.old ++ line_if test (line (kind_number kind) recipient (half_is left) (half_is right)) }
    {
        if test {
            self.put(kind, recipient, left, right);
        }
    }

    // Their numbers at the start of a list, whose rest is unchanged.
    pub fn hand_out(&self, list: &mut [u32])
        requires { length self.now * line_width ≤ length list.old }
        ensures { list.new ≡ written 0 (laid self.now) list.old }
    {
        for i in 0..self.count {
            put_numbers(list, i * WIDTH, self.lines[i]);
        }
    }
}
