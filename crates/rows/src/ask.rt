// Questions on an entry, on its texts, and on the entries of a table.
ghost use Rattle.std.specs.Prelude.{Bool, ◌≡◌, ◌+◌, ◌-◌, ◌*◌, ◌≤◌, ◌<◌, List, [], ◌∷◌, length, drop, get_or, MatchOption};
ghost use Rattle.prelude.specs.Any.{any};
ghost use Rattle.prelude.specs.Limits.{number_limit};
ghost use Rattle.rows.specs.Rows.{Entry as Said};
ghost use Rattle.rows.specs.Rows.{spelled_name, spelled_value, text_of, name_in, value_in, name_says, present, having, value_of};
ghost use Rattle.rows.specs.Tables.{first_of, width};
ghost use Rattle.rows.specs.Inner.Views.{the_entry, the_entries, the_texts};

use crate::layout;
use crate::table::{Entries, Entry, Texts};
use prelude::Place;

// The k-th of an entry's eight numbers.
pub fn field(table: &[u32], i: usize, k: usize) -> usize
    requires width_in_bounds { i * width + width ≤ length table.now }
    requires k_lt_width { k < width }
    ensures value { result ≡ get_or (drop (i * width) table.now) k 0 }
    ensures upper_bound { result < number_limit }
{
    table[i * layout::WIDTH + k] as usize
}

// The i-th entry of a table.
pub fn entry(table: &[u32], i: usize) -> Entry
    requires { i * width + width ≤ length table.now }
    ensures { result.numbers.now ≡ drop (i * width) table.now }
{
    Entry {
        numbers: &table[i * layout::WIDTH..],
    }
}

// The name of an entry as it is spelled: a part of the text that it stands in.
pub fn name<'a>(text: &'a [u8], table: &[u32], i: usize) -> &'a [u8]
    requires { i * width + width ≤ length table.now }
    ensures { result.now ≡ spelled_name text.now (first_of (drop (i * width) table.now)).member }
{
    entry(table, i).name(text)
}

impl<'a> Entry<'a> {
    pub fn origin(self) -> u32
        ensures { result ≡ (the_entry self.entry).origin }
    {
        self.numbers[layout::ORIGIN]
    }

    pub fn kind(self) -> u32
        ensures { result ≡ (the_entry self.entry).member.kind }
    {
        self.numbers[layout::KIND]
    }

    // Which of some names it has, counted from 1; 0 for none.
    pub fn number(self) -> u32
        ensures { result ≡ (the_entry self.entry).number }
    {
        self.numbers[layout::NUMBER]
    }

    // The fingerprint of what its name says.
    pub fn print(self) -> u32
        ensures { result ≡ get_or self.entry.numbers.now 7 0 }
    {
        self.numbers[layout::PRINT]
    }

    // The place of its value, with quotation marks.
    pub fn value_place(self) -> Place
        ensures start_value { result.start ≡ (the_entry self.entry).member.value_start }
        ensures len_value { result.len ≡ (the_entry self.entry).member.value_size }
        ensures start_lt_number_limit { result.start < number_limit }
    {
        Place {
            start: self.numbers[layout::VALUE_START] as usize,
            len: self.numbers[layout::VALUE_SIZE] as usize,
        }
    }

    // Its name as it is spelled: a part of the text that it stands in.
    pub fn name<'b>(self, text: &'b [u8]) -> &'b [u8]
        ensures { result.now ≡ spelled_name text.now (the_entry self.entry).member }
    {
        let start = self.numbers[layout::NAME_START] as usize;
        let len = self.numbers[layout::NAME_SIZE] as usize;
        parts::part(text, start, len)
    }

    // Its value, a string, without quotation marks: a part of the text that it stands in.
    pub fn value<'b>(self, text: &'b [u8]) -> &'b [u8]
        ensures { result.now ≡ spelled_value text.now (the_entry self.entry).member }
    {
        let place = self.value_place();
        parts::part(text, place.start + 1, prelude::minus(place.len, 2))
    }
}

impl<'a> Texts<'a> {
    // The one in which entries of an origin stand.
    pub fn of(self, origin: u32) -> &'a [u8]
        ensures { result.now ≡ text_of (the_texts self.entry) origin }
    {
        match origin {
            0 => self.header,
            1 => self.shared,
            _ => self.own,
        }
    }

    // The name of an entry, and its value, a string, as they are spelled.

    pub fn name(self, e: Entry) -> &'a [u8]
        ensures { result.now ≡ name_in (the_texts self.entry) (the_entry e.entry) }
    {
        e.name(self.of(e.origin()))
    }

    pub fn value(self, e: Entry) -> &'a [u8]
        ensures { result.now ≡ value_in (the_texts self.entry) (the_entry e.entry) }
    {
        e.value(self.of(e.origin()))
    }

    // Whether the name of an entry says what a spelling does.
    pub fn says(self, e: Entry, w: &[u8]) -> bool
        ensures { result ≡ name_says (the_texts self.entry) w.now (the_entry e.entry) }
    {
        spelling::alike(self.name(e), w)
    }
}

impl<'a> Entries<'a> {
    // The i-th.
    pub fn at(self, i: usize) -> Entry<'a>
        requires { i < self.count }
        ensures { result.numbers.now ≡ drop (i * width) self.entry.table.now }
    {
        entry(self.table, i)
    }

    // Whether one of them passes a test, whatever `f` the test says.
    pub fn any<F: Fn(Entry<'a>) -> bool>(self, test: F) -> bool
        requires { F.IsAlwaysCallable test }
        ensures { (f : Said → Bool) → ((e : _) (r : Bool) → F.post test e r → r ≡ f (the_entry e)) →
            result ≡ any f (the_entries self.entry) }
    {
        for i in 0..self.count {
            if test(self.at(i)) {
                return true;
            }
        }
        false
    }

    // The first from one on that has the n-th of the names.
    pub fn next(self, from: usize, n: u32) -> Option<usize>
        requires { from ≤ self.count }
        ensures { MatchOption result (having n (drop from (the_entries self.entry)) ≡ [])
            (λ i. (from ≤ i) × ((i < self.entry.count) × (having n (drop from (the_entries self.entry))
            ≡ first_of (drop (i * width) self.entry.table.now) ∷ having n (drop (i + 1) (the_entries self.entry))))) }
    {
        for i in from..self.count {
            if self.at(i).number() == n {
                return Some(i);
            }
        }
        None
    }

    // Whether one of them has the n-th of the names.
    #[tactic(auto, unfolding(crate::specs::Rows::present))]
    pub fn present(self, n: u32) -> bool
        ensures { result ≡ present n (the_entries self.entry) }
    {
        self.any(|e| e.number() == n)
    }

    // The place of the value of the first one that does, with quotation marks; 0, 0 where there is none.
    pub fn value_of(self, n: u32) -> Place
        ensures start_value { result.start ≡ (value_of n (the_entries self.entry)).start }
        ensures len_value { result.len ≡ (value_of n (the_entries self.entry)).size }
        ensures start_lt_number_limit { result.start < number_limit }
    {
        for i in 0..self.count {
            let e = self.at(i);
            if e.number() == n {
                return e.value_place();
            }
        }
        Place { start: 0, len: 0 }
    }
}
