// Places of right members for the next left ones. For a window of left members, the size of which is that of the table, their
// fingerprints are entered with their numbers; then one pass over the right object leaves for each number the position of a
// member whose name has the fingerprint. What is found so is only where to look: the names are compared afterwards. So
// nothing has to be shown of the fingerprints, and a position that is missing or wrong costs a walk over the right object.
//
// The numbers lent, by the table's size: positions (one size), fingerprints (three, of which searches begin in the first two),
// and behind these the left members' numbers (three). Only the positions have to stay while values are compared.
ghost use Rattle.std.specs.Prelude.{◌*◌, ◌<◌, ◌≤◌, length};
ghost use Rattle.grammar.specs.Grammar.{curly};
ghost use Rattle.json_read.specs.Inner.Known.{KnownFrom, KnownIn};
ghost use Rattle.distinct.specs.Names.{depth};
ghost use Rattle.distinct.specs.Inner.Filter.{Empty};
ghost use Rattle.pairs.specs.Inner.Walks.{Table, Kept, Left};

use json_read::Position;
use json_read::member::Rows;

// Where the search for a fingerprint begins.
fn start(v: u32, size: usize) -> usize
    requires { (0 < size) × (8 * size < 18446744073709551616) }
    ensures { (size ≤ result) × (result < 3 * size) }
{
    size + v as usize % (2 * size)
}

// Enters a left member's fingerprint with its number.
fn put(work: &mut [u32], size: usize, v: u32, number: usize)
    requires size_nonzero { (0 < size) × (8 * size ≤ length work.old) }
    requires number_bound { number ≤ 4294967295 }
    ensures { Kept size work.old work.new }
{
    let mut x = start(v, size);
    let end = 4 * size;
    while x < end {
        if work[x] == 0 {
            work[x] = v;
            work[x + 3 * size] = number as u32;
            return;
        }
        x += 1;
    }
}

// The number of a left member that has a fingerprint and no position yet, or the size.
fn look(work: &[u32], size: usize, v: u32) -> usize
    requires { (0 < size) × (8 * size ≤ length work.now) }
{
    let mut x = start(v, size);
    let end = 4 * size;
    while x < end {
        let print = work[x];
        if print == 0 {
            return size;
        }
        if print == v {
            let number = work[x + 3 * size] as usize;
            if number < size {
                if work[number] == 0 {
                    return number;
                }
            }
        }
        x += 1;
    }
    size
}

// Leaves a position for a number; one that has more than 32 bits is not left.
fn store(work: &mut [u32], size: usize, number: usize, at: usize)
    requires { size ≤ length work.old }
    ensures { Left size at work.old work.new }
{
    if number < size {
        if at <= 4294967295 {
            work[number] = at as u32;
        }
    }
}

// Enters the left members from a position on, as many as the table has places.
fn enter(s: &[u8], from: Position, turns: usize, size: usize, work: &mut [u32])
    requires known_from { KnownFrom curly depth s.now turns from.at }
    requires size_nonzero { (0 < size) × (8 * size ≤ length work.old) }
    requires empty { Empty work.old size }
    ensures { Empty work.new size }
{
    let mut number: usize = 0;
    for row in Rows::members_from(s, from, turns, 12, true) {
        if number == size {
            return;
        }
        if 4294967295 < number {
            return;
        }
        put(work, size, distinct::window::tag_of(s, row), number);
        number += 1;
    }
}

// One pass over the right object, which leaves its members' positions: so it keeps them itself.
fn meet(t: &[u8], at: usize, size: usize, work: &mut [u32])
    requires known_in { KnownIn curly depth t.now at }
    requires size_nonzero { (0 < size) × (8 * size ≤ length work.old) }
    requires table { Table t.now at size work.old }
    ensures { Table t.now at size work.new }
{
    let mut p = Position { at }.inside(t);
    let mut left = t.len();
    while 0 < left {
        let Some(found) = p.member(t, 12, true) else {
            return;
        };
        let number = look(work, size, distinct::window::tag_of(t, found.row));
        store(work, size, number, p.at);
        p = found.next;
        left -= 1;
    }
}

// The number of the left member at a position in a window: that which there is; or 0 in a new one, which begins there.
pub(crate) fn window(
    s: &[u8],
    t: &[u8],
    from: Position,
    turns: usize,
    at: usize,
    number: usize,
    size: usize,
    work: &mut [u32],
) -> usize
    requires known_from { KnownFrom curly depth s.now turns from.at }
    requires known_in { KnownIn curly depth t.now at }
    requires size_in_bounds { 8 * size ≤ length work.old }
    requires table { number < size → Table t.now at size work.old }
    ensures { result < size → Table t.now at size work.new }
{
    if number < size {
        return number;
    }
    if size == 0 {
        return number;
    }
    distinct::window::clear(work, 8 * size);
    enter(s, from, turns, size, work);
    meet(t, at, size, work);
    0
}
