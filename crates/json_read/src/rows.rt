// The members of an object, or the elements of an array, one after the other: an iterator over their rows.
ghost use Rattle.std.specs.Prelude.{◌≡◌};
ghost use Rattle.std.specs.Iterator.{YieldsFirstBy, item_count};
ghost use Rattle.grammar.specs.Grammar.{curly, square};
ghost use Rattle.grammar.specs.Reader.{entry_at, value_at, members_at, elements_at, rows_at, rows_in, step};
ghost use Rattle.json_read.specs.Members.{member_of, bracket_of, row_member};
ghost use Rattle.json_read.specs.Inner.Rows.{rows_left, elements_left};
ghost use Rattle.json_read.specs.Inner.Known.{Given, KnownEntry, KnownFrom, KnownIn};

use crate::Position;
use crate::member::{Member, Row, Rows};

impl<'a> Rows<'a> {
    // All those in the object or the array that begins at a place.
    fn all(text: &'a [u8], at: usize, array: bool, levels: u32, judged: bool) -> Rows<'a>
        requires { Given judged (KnownIn (bracket_of array) levels text.now at) }
        ensures { rows_left result ≡ rows_in (value_at levels text.now) (bracket_of array) text.now (step text.now at) }
    {
        Rows {
            text,
            at: Position { at }.inside(text),
            left: text.len(),
            array,
            levels,
            judged,
        }
    }

    // The members of the object that begins at a place.
    pub fn members(text: &'a [u8], at: usize, levels: u32, judged: bool) -> Rows<'a>
        requires { Given judged (KnownIn curly levels text.now at) }
        ensures { rows_left result ≡ members_at levels text.now at }
    {
        Rows::all(text, at, false, levels, judged)
    }

    // The elements of the array that begins at a place.
    pub fn elements(text: &'a [u8], at: usize, levels: u32, judged: bool) -> Rows<'a>
        requires { Given judged (KnownIn square levels text.now at) }
        ensures rows { rows_left result ≡ rows_in (value_at levels text.now) square text.now (step text.now at) }
        ensures elements { elements_left result ≡ elements_at levels text.now at }
    {
        Rows::all(text, at, true, levels, judged)
    }

    // The members from a position on, at most so many.
    pub fn members_from(
        text: &'a [u8],
        at: Position,
        left: usize,
        levels: u32,
        judged: bool,
    ) -> Rows<'a>
        requires { Given judged (KnownFrom curly levels text.now left at.at) }
        ensures { rows_left result ≡ rows_at (value_at levels text.now) curly text.now left at.at }
    {
        Rows {
            text,
            at,
            left,
            array: false,
            levels,
            judged,
        }
    }

    // The one that begins here. This and `next` are compiled into the loop that asks, as values are (src/value.rt).
    #[inline(always)]
    fn here(&self) -> Option<Member>
        requires { Given self.now.judged (KnownEntry (bracket_of self.now.array) self.now.levels self.now.text.now self.now.at.at) }
        ensures { result ≡ member_of self.now.text.now (entry_at (value_at self.now.levels self.now.text.now) (bracket_of self.now.array) self.now.text.now self.now.at.at) }
    {
        if self.array {
            self.at.element(self.text, self.levels, self.judged)
        } else {
            self.at.member(self.text, self.levels, self.judged)
        }
    }
}

impl<'a> Iterator for Rows<'a> {
    type Item = Row;

    ghost next_gives = { YieldsFirstBy row_member rows_left };

    ghost remaining = { item_count rows_left };

    #[inline(always)]
    fn next(&mut self) -> Option<Row> {
        if self.left == 0 {
            return None;
        }
        let found = self.here()?;
        self.at = found.next;
        self.left -= 1;
        Some(found.row)
    }
}
