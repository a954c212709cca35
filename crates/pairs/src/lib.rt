// The members of two objects paired by name, in any order, in two texts that have been judged. A walk goes along the left members;
// the partner of each is looked for behind the last one's, where it stands if both objects have one order; then where a table
// says (src/table.rt), which is made at the first miss; and where neither has it, along all right members.
#![tactic(auto)]

ghost use Rattle.std.specs.Prelude.{◌≡◌, ◌*◌, ◌<◌, ◌≤◌, length};
ghost use Rattle.grammar.specs.Grammar.{curly};
ghost use Rattle.grammar.specs.Reader.{members_at};
ghost use Rattle.json_read.specs.Inner.Known.{KnownFrom, KnownIn};
ghost use Rattle.distinct.specs.Names.{depth};
ghost use Rattle.distinct.specs.Inner.Walking.{row_member};
ghost use Rattle.pairs.specs.Inner.Walks.{Spot, Table, Near, Scanned, Finds, Going, Started, Stepped};

mod table;

use json_read::Position;
use json_read::member::Row;

// Where a walk stands: at a left member, with the turns that are left; at a right member; and the left member's number in the
// window for which the table has places.
#[derive(Clone, Copy)]
pub struct Walk {
    pub at: Position,
    pub left: usize,
    pub cursor: Position,
    pub number: usize,
}

// What a step answers: no left member is left; the next one has no partner; or the two, and where the walk goes on.
#[derive(Clone, Copy)]
pub enum Step {
    End,
    Lone,
    Pair(Row, Row, Walk),
}

// A right member that has the name, the position behind it, and the left one's number in the window.
#[derive(Clone, Copy)]
pub enum Found {
    Named(Row, Position, usize),
    Other,
}

// How many places a table gets, of the numbers that are lent: none for an object of few members, whose walks cost less. A
// table keeps one number for each of its places while values are compared, an eighth of what is lent at most; so what an
// object lends on is at least seven eighths, and after eleven levels more than a fifth of all.
pub fn room(n: usize, lent: usize) -> usize
    ensures { 8 * result ≤ lent }
{
    if n < 48 {
        return 0;
    }
    let most = lent / 8;
    if n < most { n } else { most }
}

// Whether the right member at a position has a left one's name.
fn near(s: &[u8], t: &[u8], row: Row, at: usize, q: Position, number: usize) -> Found
    requires spot { Spot t.now at q.at }
    requires at_in_bounds { length (members_at depth t.now at) < length t.now }
    ensures { Near s.now t.now at (row_member row) number result }
{
    let Some(beside) = q.member(t, 12, true) else {
        return Found::Other;
    };
    if distinct::same_name(s, t, row, beside.row) {
        return Found::Named(beside.row, beside.next, number);
    }
    Found::Other
}

// The same at the position that the table has for a number.
fn held(s: &[u8], t: &[u8], row: Row, at: usize, number: usize, size: usize, work: &[u32]) -> Found
    requires at_in_bounds { length (members_at depth t.now at) < length t.now }
    requires size_in_bounds { size ≤ length work.now }
    requires table { number < size → Table t.now at size work.now }
    ensures { Near s.now t.now at (row_member row) number result }
{
    if size <= number {
        return Found::Other;
    }
    let q = work[number];
    if q == 0 {
        return Found::Other;
    }
    near(s, t, row, at, Position { at: q as usize }, number)
}

// Looks for a left member's name along all right members. What is found is handed on with the position behind it, so that this
// walk keeps positions.
fn scan(s: &[u8], t: &[u8], row: Row, at: usize, number: usize) -> Found
    requires { KnownIn curly depth t.now at }
    ensures { Scanned s.now t.now at (row_member row) number result }
{
    let mut p = Position { at }.inside(t);
    let mut left = t.len();
    while 0 < left {
        let Some(found) = p.member(t, 12, true) else {
            return Found::Other;
        };
        if distinct::same_name(s, t, row, found.row) {
            return Found::Named(found.row, found.next, number);
        }
        p = found.next;
        left -= 1;
    }
    Found::Other
}

// Looks for it where the table says, and then along all.
fn search(
    s: &[u8],
    t: &[u8],
    row: Row,
    at: usize,
    walk: Walk,
    size: usize,
    work: &mut [u32],
) -> Found
    requires known_in { KnownIn curly depth t.now at }
    requires at_in_bounds { length (members_at depth t.now at) < length t.now }
    requires size_in_bounds { 8 * size ≤ length work.old }
    requires going { Going s.now t.now at size work.old walk }
    ensures { Finds s.now t.now at size work.new (row_member row) result }
{
    let number = table::window(s, t, walk.at, walk.left, at, walk.number, size, work);
    let found = held(s, t, row, at, number, size, work);
    let Found::Named(other, behind, k) = found else {
        return scan(s, t, row, at, number);
    };
    Found::Named(other, behind, k)
}

// Looks for it at the cursor first. An object has fewer members than its text has octets.
fn find(
    s: &[u8],
    t: &[u8],
    row: Row,
    at: usize,
    n: usize,
    walk: Walk,
    size: usize,
    work: &mut [u32],
) -> Found
    requires known_in { KnownIn curly depth t.now at }
    requires n_value { n ≡ length (members_at depth t.now at) }
    requires size_in_bounds { 8 * size ≤ length work.old }
    requires going { Going s.now t.now at size work.old walk }
    ensures { Finds s.now t.now at size work.new (row_member row) result }
{
    if t.len() <= n {
        return scan(s, t, row, at, size);
    }
    let found = near(s, t, row, at, walk.cursor, walk.number);
    let Found::Named(other, behind, k) = found else {
        return search(s, t, row, at, walk, size, work);
    };
    Found::Named(other, behind, k)
}

// A walk over the members of two objects, before the first.
pub fn start(s: &[u8], t: &[u8], i: usize, j: usize, size: usize) -> Walk
    requires known_in { KnownIn curly depth s.now i }
    requires known_in_2 { KnownIn curly depth t.now j }
    ensures { Started s.now t.now i j size result }
{
    Walk {
        at: Position { at: i }.inside(s),
        left: s.len(),
        cursor: Position { at: j }.inside(t),
        number: size,
    }
}

// The number of the next left member.
fn after(number: usize, size: usize) -> usize
    ensures { result < size → number < size }
{
    if number < size { number + 1 } else { number }
}

// The next left member and its partner. The right object begins at `at` and has n members.
pub fn next(
    s: &[u8],
    t: &[u8],
    at: usize,
    n: usize,
    walk: Walk,
    size: usize,
    work: &mut [u32],
) -> Step
    requires known_in { KnownIn curly depth t.now at }
    requires n_value { n ≡ length (members_at depth t.now at) }
    requires size_in_bounds { 8 * size ≤ length work.old }
    requires going { Going s.now t.now at size work.old walk }
    ensures { Stepped s.now t.now at size work.new walk result }
{
    if walk.left == 0 {
        return Step::End;
    }
    let Some(here) = walk.at.member(s, 12, true) else {
        return Step::End;
    };
    let found = find(s, t, here.row, at, n, walk, size, work);
    let Found::Named(other, behind, number) = found else {
        return Step::Lone;
    };
    Step::Pair(
        here.row,
        other,
        Walk {
            at: here.next,
            left: walk.left - 1,
            cursor: behind,
            number: after(number, size),
        },
    )
}
