// Members of objects and elements of arrays, one after the other. In a text that has been judged, values that are objects
// or arrays are passed over by their brackets.
ghost use Rattle.std.specs.Prelude.{◌≡◌, ◌+◌, ◌-◌, ◌≤◌, length, take};
ghost use Rattle.prelude.specs.Buffer.{written};
ghost use Rattle.prelude.specs.Limits.{most_members};
ghost use Rattle.grammar.specs.Grammar.{curly, square};
ghost use Rattle.grammar.specs.Reader.{entry_at, value_at, members_at};
ghost use Rattle.json_read.specs.Members.{first_in, member_of, next_from, five_of, flat, bracket_of, collected_of, member_room, member_width};
ghost use Rattle.json_read.specs.Inner.Known.{Given, Known, KnownEntry, KnownFrom, KnownIn, given_prop, from_prop};

use crate::Position;
use prelude::Place;
use prelude::limits::MOST_MEMBERS;

// How many numbers a row has in a table, and the room of a table for the rows of an object.
pub const WIDTH: usize = 5;

pub const ROOM: usize = MOST_MEMBERS * WIDTH;

// A member: the place of its name without quotation marks (0, 0 for an element), the place of its value, its kind.
#[derive(Clone, Copy)]
pub struct Row {
    pub name: Place,
    pub value: Place,
    pub kind: u8,
}

// The member or element that begins here, and where the next one begins.
#[derive(Clone, Copy)]
pub struct Member {
    pub row: Row,
    pub next: Position,
}

// The members of an object, or the elements of an array, from a place on (src/rows.rt), no more than are left of the text's octets. What is asked of a judged text is known of all of them.
#[derive(Clone, Copy)]
pub struct Rows<'a> {
    pub text: &'a [u8],
    pub at: Position,
    pub left: usize,
    pub array: bool,
    pub levels: u32,
    pub judged: bool,
    ghost known: { Given judged (KnownFrom (bracket_of array) levels text.now left at.at) } by { given_prop judged (from_prop (bracket_of array) levels text.now left at.at) },
}

// The five numbers of a row, written from a position on.
fn put_row(row: Row, table: &mut [usize], at: usize)
    requires { at + member_width ≤ length table.old }
    ensures { table.new ≡ written at (five_of row) table.old }
{
    let name = row.name;
    let value = row.value;
    table[at] = name.start;
    table[at + 1] = name.len;
    table[at + 2] = value.start;
    table[at + 3] = value.len;
    table[at + 4] = row.kind as usize;
}

impl Position {
    // Where the first member or element of the object or array that begins here would stand.
    pub fn inside(self, s: &[u8]) -> Position
        ensures { result.at ≡ first_in s.now self.at }
    {
        let past = self.step(s);
        past.skip_space(s)
    }

    // Where the member or element after this one begins: past a comma, if one stands here; else the text's end.
    fn next_entry(self, s: &[u8]) -> Position
        ensures { result.at ≡ next_from s.now self.at }
    {
        let after = self.skip_space(s);
        if after.peek(s) == 44 {
            after.step(s).skip_space(s)
        } else {
            Position { at: s.len() }
        }
    }

    // The member that begins here: compiled into its callers, as values are (src/value.rt).
    #[inline(always)]
    pub fn member(self, s: &[u8], levels: u32, judged: bool) -> Option<Member>
        requires { Given judged (KnownEntry curly levels s.now self.at) }
        ensures { result ≡ member_of s.now (entry_at (value_at levels s.now) curly s.now self.at) }
    {
        let at = self.at;
        let end = self.string(s)?;
        let colon = end.skip_space(s);
        if colon.peek(s) != 58 {
            return None;
        }
        let begin = colon.step(s).skip_space(s);
        let found = begin.value_in(s, levels, judged)?;
        let name = Place {
            start: at + 1,
            len: prelude::minus(end.at, at + 2),
        };
        let value = Place {
            start: begin.at,
            len: prelude::minus(found.end.at, begin.at),
        };
        let row = Row {
            name,
            value,
            kind: found.kind,
        };
        let next = found.end.next_entry(s);
        Some(Member { row, next })
    }

    // The element that begins here: compiled into its callers, as values are (src/value.rt).
    #[inline(always)]
    pub fn element(self, s: &[u8], levels: u32, judged: bool) -> Option<Member>
        requires { Given judged (Known levels s.now self.at) }
        ensures { result ≡ member_of s.now (entry_at (value_at levels s.now) square s.now self.at) }
    {
        let at = self.at;
        let found = self.value_in(s, levels, judged)?;
        let name = Place { start: 0, len: 0 };
        let value = Place {
            start: at,
            len: prelude::minus(found.end.at, at),
        };
        let row = Row {
            name,
            value,
            kind: found.kind,
        };
        let next = found.end.next_entry(s);
        Some(Member { row, next })
    }

    // How many members the object has that begins here, or nothing where they are more than 32: the first 32 of them go into
    // the table, five numbers each.
    pub fn collect(self, s: &[u8], levels: u32, judged: bool, table: &mut [usize]) -> Option<usize>
        requires member_room_in_bounds { member_room ≤ length table.old }
        requires given { Given judged (KnownIn curly levels s.now self.at) }
        ensures value { result ≡ collected_of (members_at levels s.now self.at) }
        ensures table_after { table.new ≡ written 0 (flat (take most_members (members_at levels s.now self.at))) table.old }
    {
        let mut count: usize = 0;
        for row in Rows::members(s, self.at, levels, judged) {
            if count == MOST_MEMBERS {
                return None;
            }
            put_row(row, table, count * WIDTH);
            count += 1;
        }
        Some(count)
    }
}
