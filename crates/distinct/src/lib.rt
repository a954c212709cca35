// Whether an object has a name twice, in a text that has been judged: few names are compared with each other, many go through a
// filter of fingerprints (src/window.rt). What each function answers stands in specs/Names.
#![tactic(auto)]

ghost use Rattle.std.specs.Prelude.{◌≡◌, not, ◌*◌, ◌≤◌, length};
ghost use Rattle.grammar.specs.Grammar.{curly};
ghost use Rattle.grammar.specs.Reader.{members_at};
ghost use Rattle.grammar.specs.Spellings.{alike};
ghost use Rattle.json_read.specs.Inner.Rows.{rows_left};
ghost use Rattle.json_read.specs.Inner.Known.{KnownIn};
ghost use Rattle.prelude.specs.Any.{any};
ghost use Rattle.distinct.specs.Names.{depth, name_at, same_name, repeats};
ghost use Rattle.distinct.specs.Inner.Walking.{row_member};

pub mod window;

use json_read::member::{Row, Rows};

// A member's name as it is spelled.
pub fn name(s: &[u8], row: Row) -> &[u8]
    ensures { result.now ≡ name_at s.now (row_member row) }
{
    let place = row.name;
    parts::part(s, place.start, place.len)
}

// Whether two spellings say the same.
fn says_same(v: &[u8], w: &[u8]) -> bool
    ensures { result ≡ alike v.now w.now }
{
    spelling::alike(v, w)
}

// Whether two members' names say the same.
pub fn same_name(s: &[u8], t: &[u8], a: Row, b: Row) -> bool
    ensures { result ≡ same_name s.now t.now (row_member a) (row_member b) }
{
    says_same(name(s, a), name(t, b))
}

// Whether one of some members has a name that says what a member's name says.
fn again(s: &[u8], row: Row, mut others: Rows) -> bool
    ensures { result ≡ any (same_name s.now s.now (row_member row)) (rows_left others.entry) }
{
    others.any(|other| same_name(s, s, row, other))
}

// Whether two names of an object say the same.
fn by_pairs(s: &[u8], at: usize) -> bool
    requires { KnownIn curly depth s.now at }
    ensures { result ≡ repeats s.now (members_at depth s.now at) }
{
    let mut members = Rows::members(s, at, 12, true);
    while let Some(row) = members.next() {
        if again(s, row, members) {
            return true;
        }
    }
    false
}

// How many members an object has.
pub fn count(s: &[u8], at: usize) -> usize
    requires { KnownIn curly depth s.now at }
    ensures { result ≡ length (members_at depth s.now at) }
{
    Rows::members(s, at, 12, true).count()
}

// How many members a window has: no more than there are, and than a quarter of the numbers that are lent.
fn window_size(n: usize, room: usize) -> usize
    ensures { 4 * result ≤ room }
{
    let most = room / 4;
    if n < most { n } else { most }
}

// Whether the n names of an object say different things: a few are compared, many go through a filter in the lent numbers,
// which takes as many of them as it needs. What they hold does not matter.
pub fn distinct(s: &[u8], at: usize, n: usize, work: &mut [u32]) -> bool
    requires { KnownIn curly depth s.now at }
    ensures { result ≡ not (repeats s.now (members_at depth s.now at)) }
{
    let size = window_size(n, work.len());
    if size <= 64 {
        return !by_pairs(s, at);
    }
    !window::by_windows(s, at, work, size)
}
