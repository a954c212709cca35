// The contents of `crit` (document 01's 17): its elements are read one after the other, where the value stands. What
// each function answers stands in specs/HeaderRules.
ghost use Rattle.std.specs.Prelude.{◌≡◌, true};
ghost use Rattle.grammar.specs.Reader.{elements_at};
ghost use Rattle.names.specs.Names.{names, filled};
ghost use Rattle.prelude.specs.Limits.{levels};
ghost use Rattle.prelude.specs.Any.{any, any_pair};
ghost use Rattle.rows.specs.Inner.Views.{the_entry, the_entries, the_texts};
ghost use Rattle.jose.specs.HeaderRules.{spelled_element, unknown, same_element, misplaced};
ghost use Rattle.jose.specs.HeaderRules.{is_empty, wrong_crit, critical};
ghost use Rattle.json_read.specs.Inner.Rows.{elements_left};
ghost use Rattle.jose.specs.Inner.Elements.{element_of};

use crate::lists::CRIT;
use json_read::member::{Row, Rows};
use prelude::limits::LEVELS;
use rows::layout::STRING;
use rows::table::{Entries, Entry, Texts};

// A string element as it is spelled, without quotation marks; the empty part where it lies outside the text.
fn spelled(s: &[u8], row: Row) -> &[u8]
    ensures { result.now ≡ spelled_element s.now (element_of row) }
{
    let value = row.value;
    let start = value.start;
    if s.len() <= start {
        return &s[..0];
    }
    parts::part(s, start + 1, prelude::minus(value.len, 2))
}

// Whether an array has no element.
fn empty(s: &[u8], at: usize) -> bool
    ensures { result ≡ is_empty (elements_at levels s.now at) }
{
    Rows::elements(s, at, LEVELS, false).next().is_none()
}

// Whether an element is no string, or none of the known names.
fn unknown(s: &[u8], known: &[u8], row: Row) -> bool
    requires { filled known.now ≡ true }
    ensures { result ≡ unknown (names known.now) s.now (element_of row) }
{
    row.kind as u32 != STRING || names::find(known, spelled(s, row)) == 0
}

// Whether one of an array is.
fn some_unknown(s: &[u8], known: &[u8], at: usize) -> bool
    requires { filled known.now ≡ true }
    ensures { result ≡ any (unknown (names known.now) s.now) (elements_at levels s.now at) }
{
    Rows::elements(s, at, LEVELS, false).any(|row| unknown(s, known, row))
}

// Whether two elements say the same.
fn same(s: &[u8], a: Row, b: Row) -> bool
    ensures { result ≡ same_element s.now (element_of a) (element_of b) }
{
    spelling::alike(spelled(s, a), spelled(s, b))
}

// Whether one of some elements says what an element says.
fn again(s: &[u8], row: Row, mut others: Rows) -> bool
    ensures { result ≡ any (same_element s.now (element_of row)) (elements_left others.entry) }
{
    others.any(|other| same(s, row, other))
}

// Whether two elements of an array say the same. Each is compared with those after it until two do; where all are known
// names, that is soon.
fn twice(s: &[u8], at: usize) -> bool
    ensures { result ≡ any_pair (same_element s.now) (elements_at levels s.now at) }
{
    let mut elements = Rows::elements(s, at, LEVELS, false);
    while let Some(row) = elements.next() {
        if again(s, row, elements) {
            return true;
        }
    }
    false
}

// Whether an element is a registered name, or no name of the recipient's headers.
fn misplaced(texts: Texts, entries: Entries, s: &[u8], row: Row) -> bool
    ensures { result ≡ misplaced (the_texts texts.entry) (the_entries entries.entry) s.now (element_of row) }
{
    let w = spelled(s, row);
    let list = crate::lists::REGISTERED;
    if names::find(&list, w) != 0 {
        return true;
    }
    !entries.any(|e| texts.says(e, w))
}

// Whether one of an array is.
fn some_misplaced(texts: Texts, entries: Entries, s: &[u8], at: usize) -> bool
    ensures { result ≡ any (misplaced (the_texts texts.entry) (the_entries entries.entry) s.now) (elements_at levels s.now at) }
{
    Rows::elements(s, at, LEVELS, false).any(|row| misplaced(texts, entries, s, row))
}

// Whether the elements of an array in the text s are wrong as those of `crit`.
#[tactic(auto, unfolding(crate::specs::HeaderRules::wrong_crit))]
fn wrong(texts: Texts, entries: Entries, known: &[u8], s: &[u8], at: usize) -> bool
    requires { filled known.now ≡ true }
    ensures { result ≡ wrong_crit (names known.now) (the_texts texts.entry) (the_entries entries.entry) s.now (elements_at levels s.now at) }
{
    empty(s, at)
        || some_unknown(s, known, at)
        || twice(s, at)
        || some_misplaced(texts, entries, s, at)
}

// Whether an entry is a `crit` with wrong contents.
fn critical(texts: Texts, entries: Entries, known: &[u8], e: Entry) -> bool
    requires { filled known.now ≡ true }
    ensures { result ≡ critical (names known.now) (the_texts texts.entry) (the_entries entries.entry) (the_entry e.entry) }
{
    if e.number() != CRIT {
        return false;
    }
    wrong(
        texts,
        entries,
        known,
        texts.of(e.origin()),
        e.value_place().start,
    )
}

// 17: whether one of a recipient's parameters is.
pub fn wrong_crit(texts: Texts, entries: Entries, known: &[u8]) -> bool
    requires { filled known.now ≡ true }
    ensures { result ≡ any (critical (names known.now) (the_texts texts.entry) (the_entries entries.entry)) (the_entries entries.entry) }
{
    entries.any(|e| critical(texts, entries, known, e))
}
