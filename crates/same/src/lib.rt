// Two JSON values compared where they stand in two texts that have been judged: document 02's 4/12. What each function
// answers stands in specs/Same.
#![tactic(auto)]

ghost use Rattle.std.specs.Prelude.{◌≡◌, not, false, ◌&&◌, ◌≤◌, length, eqb};
ghost use Rattle.grammar.specs.Grammar.{curly, square};
ghost use Rattle.grammar.specs.Reader.{members_at, elements_at, as_element};
ghost use Rattle.grammar.specs.Spellings.{equal};
ghost use Rattle.json_read.specs.Inner.Known.{KnownIn};
ghost use Rattle.distinct.specs.Inner.Walking.{row_member};
ghost use Rattle.pairs.specs.Inner.Walks.{Kept};
ghost use Rattle.same.specs.Same.{depth, all, own_at, spelled_at, repeats, same_elements, has_pair, inner_at, same_at};
ghost use Rattle.same.specs.Inner.Walking.{work_room, element_of, value_of, Reads};

use json_read::member::{Row, Rows};
use pairs::Step;

// How many numbers a caller lends to the comparison, which works in them. What they hold does not matter.
pub const WORK_ROOM: usize = 262144;

// A value: its place and its kind, as a row or an entry of document 01's list has them.
#[derive(Clone, Copy)]
pub struct Value {
    pub start: usize,
    pub len: usize,
    pub kind: u8,
}

// The value of a member or an element.
fn value_of(row: Row) -> Value
    ensures { result ≡ value_of row }
{
    let place = row.value;
    Value {
        start: place.start,
        len: place.len,
        kind: row.kind,
    }
}

// Whether two values have the same octets.
fn same_octets(s: &[u8], t: &[u8], a: Value, b: Value) -> bool
    ensures { result ≡ equal (own_at s.now (element_of a)) (own_at t.now (element_of b)) }
{
    prelude::equal(
        parts::part(s, a.start, a.len),
        parts::part(t, b.start, b.len),
    )
}

// A string as it is spelled, without quotation marks.
fn spelled(s: &[u8], v: Value) -> &[u8]
    ensures { result.now ≡ spelled_at s.now (element_of v) }
{
    let start = v.start;
    if s.len() <= start {
        return &s[..0];
    }
    parts::part(s, start + 1, prelude::minus(v.len, 2))
}

// Whether two objects can be compared by name: they have as many members, and neither has a name twice.
fn comparable(s: &[u8], t: &[u8], i: usize, j: usize, work: &mut [u32]) -> bool
    requires known_in { KnownIn curly depth s.now i }
    requires known_in_2 { KnownIn curly depth t.now j }
    ensures { result ≡ eqb (length (members_at depth s.now i)) (length (members_at depth t.now j)) && (not (repeats s.now (members_at depth s.now i)) && not (repeats t.now (members_at depth t.now j))) }
{
    let n = distinct::count(s, i);
    if n != distinct::count(t, j) {
        return false;
    }
    if !distinct::distinct(s, i, n, work) {
        return false;
    }
    distinct::distinct(t, j, n, work)
}

// Whether the values of two members are the same. The first numbers of those that are lent are unchanged.
#[cycle(all_paired_arrays_compare_values)]
fn values(s: &[u8], t: &[u8], a: Row, b: Row, levels: u32, size: usize, work: &mut [u32]) -> bool
    requires reads { Reads s.now (as_element (row_member a)) }
    requires reads_2 { Reads t.now (as_element (row_member b)) }
    requires size_in_bounds { size ≤ length work.old }
    ensures value { result ≡ inner_at levels s.now t.now (as_element (row_member a)) (as_element (row_member b)) }
    ensures kept { Kept size work.old work.new }
{
    if levels == 0 {
        return false;
    }
    compare(
        s,
        t,
        value_of(a),
        value_of(b),
        levels - 1,
        &mut work[size..],
    )
}

// Whether each left member has a right one that pairs with it: their names say the same, and their values are the same. As no
// name stands twice, a left member's partner is its only one, and no value is compared twice. The numbers that the walk
// keeps stand before those that are lent on.
#[cycle(all_paired_arrays_compare_values)]
fn all_paired(s: &[u8], t: &[u8], i: usize, j: usize, levels: u32, work: &mut [u32]) -> bool
    requires known_in { KnownIn curly depth s.now i }
    requires known_in_2 { KnownIn curly depth t.now j }
    requires j_value { repeats t.now (members_at depth t.now j) ≡ false }
    ensures { result ≡ all (has_pair (inner_at levels s.now t.now) s.now t.now (members_at depth t.now j)) (members_at depth s.now i) }
{
    let n = distinct::count(t, j);
    let size = pairs::room(n, work.len());
    let mut walk = pairs::start(s, t, i, j, size);
    loop {
        let step = pairs::next(s, t, j, n, walk, size, work);
        match step {
            Step::End => {
                return true;
            }
            Step::Lone => {
                return false;
            }
            Step::Pair(a, b, on) => {
                if !values(s, t, a, b, levels, size, work) {
                    return false;
                }
                walk = on;
            }
        }
    }
}

// Whether two arrays have the same elements in order.
#[cycle(all_paired_arrays_compare_values)]
fn arrays(s: &[u8], t: &[u8], i: usize, j: usize, levels: u32, work: &mut [u32]) -> bool
    requires known_in { KnownIn square depth s.now i }
    requires known_in_2 { KnownIn square depth t.now j }
    ensures { result ≡ same_elements (inner_at levels s.now t.now) (elements_at depth s.now i) (elements_at depth t.now j) }
{
    let mut others = Rows::elements(t, j, 12, true);
    for a in Rows::elements(s, i, 12, true) {
        let Some(b) = others.next() else {
            return false;
        };
        if levels == 0 {
            return false;
        }
        if !compare(s, t, value_of(a), value_of(b), levels - 1, work) {
            return false;
        }
    }
    others.next().is_none()
}

// Whether two values are the same: the same octets; or, of one kind, strings that say the same, arrays in order, objects
// by name.
#[cycle(all_paired_arrays_compare_values)]
fn compare(s: &[u8], t: &[u8], a: Value, b: Value, levels: u32, work: &mut [u32]) -> bool
    requires reads { Reads s.now (element_of a) }
    requires reads_2 { Reads t.now (element_of b) }
    ensures { result ≡ same_at levels s.now t.now (element_of a) (element_of b) }
{
    if same_octets(s, t, a, b) {
        return true;
    }
    if a.kind != b.kind {
        return false;
    }
    if a.kind == 0 {
        if !comparable(s, t, a.start, b.start, work) {
            return false;
        }
        return all_paired(s, t, a.start, b.start, levels, work);
    }
    if a.kind == 1 {
        return arrays(s, t, a.start, b.start, levels, work);
    }
    if a.kind == 2 {
        return spelling::alike(spelled(s, a), spelled(t, b));
    }
    false
}

// The same, for callers: the numbers that they lend are enough for objects of any size (`pairs::room`). What these hold does
// not matter, before or after.
pub fn same(s: &[u8], t: &[u8], a: Value, b: Value, levels: u32, work: &mut [u32]) -> bool
    requires reads { Reads s.now (element_of a) }
    requires reads_2 { Reads t.now (element_of b) }
    requires work_room_in_bounds { work_room ≤ length work.old }
    ensures { result ≡ same_at levels s.now t.now (element_of a) (element_of b) }
{
    compare(s, t, a, b, levels, work)
}
