// Parameters of two messages matched by name. A side is what is compared of a message: its decoded protected header, the message itself and
// a table of entries of both.
#![tactic(auto)]

ghost use Rattle.std.specs.Prelude.{◌≡◌, ◌+◌, ◌*◌, ◌≤◌, length, drop};
ghost use Rattle.rows.specs.Rows.{read_texts, text_of, name_in};
ghost use Rattle.rows.specs.Tables.{first_of, width};

use rows::table::Texts;
use rows::{ask, layout};
use same::Value;

// The text in which an entry of a table stands: the decoded protected header, or the message.
pub fn text<'a>(header: &'a [u8], message: &'a [u8], table: &[u32], i: usize) -> &'a [u8]
    requires { i * width + width ≤ length table.now }
    ensures { result.now ≡ text_of (read_texts header.now message.now) (first_of (drop (i * width) table.now)).origin }
{
    if ask::field(table, i, layout::ORIGIN) == 0 {
        return header;
    }
    message
}

// The name of an entry of a table as it is spelled.
pub fn name<'a>(header: &'a [u8], message: &'a [u8], table: &[u32], i: usize) -> &'a [u8]
    requires { i * width + width ≤ length table.now }
    ensures { result.now ≡ name_in (read_texts header.now message.now) (first_of (drop (i * width) table.now)) }
{
    ask::name(text(header, message, table, i), table, i)
}

// Of the table's first `count` entries, the first `common` are all recipients'.
#[derive(Clone, Copy)]
pub struct Side<'a, 't> {
    pub header: &'a [u8],
    pub message: &'a [u8],
    pub table: &'t [u32],
    pub common: usize,
    pub count: usize,
    pub ghost few: { common ≤ count },
    pub ghost fits: { count * width ≤ length table.now },
}

impl<'a, 't> Side<'a, 't> {
    ghost use Rattle.std.specs.Prelude.{◌≡◌, ◌*◌, ◌≤◌, ◌<◌, length, drop, IfSome};
    ghost use Rattle.grammar.specs.Spellings.{undo};
    ghost use Rattle.spelling.specs.Inner.Fingerprints.{fingerprint};
    ghost use Rattle.rows.specs.Rows.{text_of, name_in, name_says};
    ghost use Rattle.rows.specs.Tables.{width};
    ghost use Rattle.rows.specs.Inner.Prints.{HasPrint};
    ghost use Rattle.same.specs.Inner.Walking.{element_of};
    ghost use Rattle.matching.specs.Matching.{partner, value_of};
    ghost use Rattle.matching.specs.Inner.Places.{found, Matched};
    ghost use Rattle.matching.specs.Inner.Sides.{texts, entries, entry_at, HasPrints};

    // The text in which an entry stands: the decoded protected header, or the message.
    pub fn text(&self, i: usize) -> &'a [u8]
        requires { i < self.now.count }
        ensures { result.now ≡ text_of (texts self.now) (entry_at self.now i).origin }
    {
        text(self.header, self.message, self.table, i)
    }

    // The name of an entry as it is spelled.
    pub fn name(&self, i: usize) -> &'a [u8]
        requires { i < self.now.count }
        ensures { result.now ≡ name_in (texts self.now) (entry_at self.now i) }
    {
        name(self.header, self.message, self.table, i)
    }

    // The value of an entry, by its place and kind.
    pub fn value(&self, i: usize) -> Value
        requires i_lt_count { i < self.now.count }
        requires kind_bound { (entry_at self.now i).member.kind < 256 }
        ensures { element_of result ≡ value_of (entry_at self.now i) }
    {
        Value {
            start: ask::field(self.table, i, layout::VALUE_START),
            len: ask::field(self.table, i, layout::VALUE_SIZE),
            kind: ask::field(self.table, i, layout::KIND) as u8,
        }
    }

    // Whether the name of an entry says what a spelling does, whose fingerprint is given: fingerprints are compared first.
    fn named(&self, i: usize, print: usize, w: &[u8]) -> bool
        requires i_lt_count { i < self.now.count }
        requires has_print { HasPrint (texts self.now) (drop (i * width) self.now.table.now) }
        requires print_value { print ≡ fingerprint (undo w.now) }
        ensures { result ≡ name_says (texts self.now) w.now (entry_at self.now i) }
    {
        if ask::field(self.table, i, layout::PRINT) != print {
            return false;
        }
        let texts = Texts {
            header: self.header,
            shared: self.message,
            own: self.message,
        };
        texts.says(ask::entry(self.table, i), w)
    }

    // The first entry, from one on, whose name says what that of entry i of another side does.
    pub fn seek(&self, from: usize, other: &Side<'_, '_>, i: usize) -> Option<usize>
        requires from_le_count { from ≤ self.now.count }
        requires i_lt_count { i < other.now.count }
        requires printed { HasPrints self.now }
        requires has_print { HasPrint (texts other.now) (drop (i * width) other.now.table.now) }
        ensures lower_bound { IfSome result (λ j. from ≤ j) }
        ensures bounds { IfSome result (λ j. j < self.now.count) }
        ensures partner { partner (texts self.now) (name_in (texts other.now) (entry_at other.now i)) (drop from (entries self.now)) ≡ found (entries self.now) result }
    {
        let print = ask::field(other.table, i, layout::PRINT);
        let w = other.name(i);
        for j in from..self.count {
            if self.named(j, print, w) {
                return Some(j);
            }
        }
        None
    }

    // For each entry of another side the number of its partner here: matched once for all recipients, whose common parameters they are.
    pub fn seek_all(&self, other: &Side<'_, '_>, numbers: &mut [Option<usize>])
        requires other_in_bounds { other.now.count ≤ length numbers.old }
        requires printed { HasPrints self.now }
        requires other_printed { HasPrints other.now }
        ensures { Matched (texts other.now) (texts self.now) (entries other.now) (entries self.now) numbers.new }
    {
        for i in 0..other.count {
            numbers[i] = self.seek(0, other, i);
        }
    }
}
