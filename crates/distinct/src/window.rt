// Whether an object has a name twice, for objects of any size: windows of so many members as a quarter of the lent numbers,
// whose fingerprints go into a filter; one pass over the members from there on for each. Only where the filter says that a
// fingerprint may have been entered are names compared.
ghost use Rattle.std.specs.Prelude.{◌≡◌, true, ◌*◌, ◌<◌, ◌≤◌, length, get_or};
ghost use Rattle.grammar.specs.Bounds.{Every};
ghost use Rattle.grammar.specs.Grammar.{curly};
ghost use Rattle.grammar.specs.Reader.{members_at};
ghost use Rattle.json_read.specs.Inner.Known.{KnownFrom, KnownIn};
ghost use Rattle.prelude.specs.Any.{any};
ghost use Rattle.distinct.specs.Names.{depth, same_name, repeats};
ghost use Rattle.distinct.specs.Inner.Walking.{row_member, rows_from};
ghost use Rattle.distinct.specs.Inner.Filter.{tag_of, start_of, Marked, Looked, Entered, Filled, Empty};

use json_read::Position;
use json_read::member::{Row, Rows};

// The first free place from a tag's start on; or that the tag stands before it, or that no place is free.
#[derive(Clone, Copy)]
pub enum Slot {
    Free(usize),
    Taken,
}

// What a window answers: a name stands twice; or where the members behind it begin, with the turns that are left.
#[derive(Clone, Copy)]
pub enum Window {
    Repeats,
    Next(Position, usize),
}

// What is entered for a member's name: its fingerprint, or 1 for 0.
pub fn tag_of(s: &[u8], row: Row) -> u32
    ensures { (result ≡ tag_of s.now (row_member row)) × (0 < result) }
{
    let print = spelling::fingerprint(crate::name(s, row));
    if print == 0 { 1 } else { print }
}

// Where the search for it begins. The last quarter is left to those that find their places taken, so that the members
// of a window have places, whatever their fingerprints are.
fn start(v: u32, size: usize) -> usize
    requires { (0 < size) × (4 * size < 18446744073709551616) }
    ensures { (result ≡ start_of size v) × (result < 3 * size) }
{
    v as usize % (3 * size)
}

// Looks for a tag from its start on.
fn look(filter: &[u32], from: usize, end: usize, v: u32) -> Slot
    requires { end ≤ length filter.now }
    ensures { Looked filter.now from end v result }
{
    let mut at = from;
    while at < end {
        let x = filter[at];
        if x == v {
            return Slot::Taken;
        }
        if x == 0 {
            return Slot::Free(at);
        }
        at += 1;
    }
    Slot::Taken
}

// Whether a tag may have been entered; it is entered, if it is to be kept.
fn enter(filter: &mut [u32], size: usize, v: u32, keep: bool) -> bool
    requires v_nonzero { 0 < v }
    requires size_nonzero { (0 < size) × (4 * size ≤ length filter.old) }
    ensures { Entered size filter.old filter.new v keep result }
{
    let slot = look(filter, start(v, size), 4 * size, v);
    let Slot::Free(k) = slot else {
        return true;
    };
    if keep {
        filter[k] = v;
    }
    false
}

// The first numbers are 0 afterwards. What a filter held would do no harm: it would only make names be compared.
pub fn clear(work: &mut [u32], end: usize)
    requires { end ≤ length work.old }
    ensures { Empty work.new end }
{
    let mut i: usize = 0;
    while i < end {
        work[i] = 0;
        i += 1;
    }
}

// Whether one of the members from a position on, at most so many, has a name that says what a later member's says.
fn earlier(s: &[u8], row: Row, from: Position, turns: usize) -> bool
    requires { KnownFrom curly depth s.now turns from.at }
    ensures { result ≡ any (λ x. same_name s.now s.now x (row_member row)) (rows_from curly s.now turns from.at) }
{
    Rows::members_from(s, from, turns, 12, true).any(|other| crate::same_name(s, s, other, row))
}

// Whether one of the first members from a position on has a name that says what a later one's says. They have been
// entered into the filter; the later one is, if it is to be kept.
fn clashes(
    s: &[u8],
    row: Row,
    from: Position,
    done: usize,
    filter: &mut [u32],
    size: usize,
    keep: bool,
) -> bool
    requires known_from { KnownFrom curly depth s.now done from.at }
    requires every { Every (λ m. Marked size filter.old (tag_of s.now m)) (rows_from curly s.now done from.at) }
    requires size_nonzero { (0 < size) × (4 * size ≤ length filter.old) }
    ensures value { result ≡ any (λ x. same_name s.now s.now x (row_member row)) (rows_from curly s.now done from.at) }
    ensures marked { (keep ≡ true → Marked size filter.new (tag_of s.now (row_member row))) × Every (λ m. Marked size filter.new (tag_of s.now m)) (rows_from curly s.now done from.at) }
{
    let v = tag_of(s, row);
    if enter(filter, size, v, keep) {
        return earlier(s, row, from, done);
    }
    false
}

// Enters the members of a window, each against those before it. A window is said by where it begins and how many of it have
// been entered, so that this walk keeps positions.
fn fill(s: &[u8], from: Position, left: usize, filter: &mut [u32], size: usize) -> Window
    requires known_from { KnownFrom curly depth s.now left from.at }
    requires size_nonzero { (0 < size) × (4 * size ≤ length filter.old) }
    ensures { Filled size s.now left from.at filter.new result }
{
    let mut q = from;
    let mut done: usize = 0;
    while done < size {
        if done == left {
            return Window::Next(q, 0);
        }
        let Some(found) = q.member(s, 12, true) else {
            return Window::Next(q, 0);
        };
        if clashes(s, found.row, from, done, filter, size, true) {
            return Window::Repeats;
        }
        q = found.next;
        done += 1;
    }
    Window::Next(q, left - done)
}

// Whether one of the members behind a window has a name that one of the window says.
fn against(
    s: &[u8],
    from: Position,
    done: usize,
    behind: Position,
    left: usize,
    filter: &mut [u32],
    size: usize,
) -> bool
    requires known_from { KnownFrom curly depth s.now done from.at }
    requires known_from_2 { KnownFrom curly depth s.now left behind.at }
    requires every { Every (λ m. Marked size filter.old (tag_of s.now m)) (rows_from curly s.now done from.at) }
    requires size_nonzero { (0 < size) × (4 * size ≤ length filter.old) }
    ensures { result ≡ any (λ m. any (λ x. same_name s.now s.now x m) (rows_from curly s.now done from.at)) (rows_from curly s.now left behind.at) }
{
    for row in Rows::members_from(s, behind, left, 12, true) {
        if clashes(s, row, from, done, filter, size, false) {
            return true;
        }
    }
    false
}

// Whether two names of an object say the same.
pub(crate) fn by_windows(s: &[u8], at: usize, filter: &mut [u32], size: usize) -> bool
    requires known_in { KnownIn curly depth s.now at }
    requires size_nonzero { (0 < size) × (4 * size ≤ length filter.old) }
    ensures { result ≡ repeats s.now (members_at depth s.now at) }
{
    let mut p = Position { at }.inside(s);
    let mut left = s.len();
    while 0 < left {
        clear(filter, 4 * size);
        let answer = fill(s, p, left, filter, size);
        let Window::Next(next, more) = answer else {
            return true;
        };
        if against(s, p, left - more, next, more, filter, size) {
            return true;
        }
        p = next;
        left = more;
    }
    false
}
