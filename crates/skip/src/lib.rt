// Past an object or an array in a text that has been read before: by its brackets alone, over blocks in which nothing
// has to be looked at. What each function answers stands in specs/Inner/Past.
#![tactic(auto)]

ghost use Rattle.std.specs.Prelude.{◌≡◌, false, ℕ, ◌+◌, ◌≤◌, ◌<◌, length, get_or};
ghost use Rattle.grammar.specs.Grammar.{quote};
ghost use Rattle.skip.specs.Inner.Past.{is_opening, is_closing, is_mark, outside, inside, past_from, past_nested};
ghost use Rattle.skip.specs.Inner.Past.{Alike};

use blocks::Kind;

// [ {
fn is_opening(c: u8) -> bool
    ensures { result ≡ is_opening c }
{
    (c == b'[') | (c == b'{')
}

// ] }
fn is_closing(c: u8) -> bool
    ensures { result ≡ is_closing c }
{
    (c == b']') | (c == b'}')
}

// " \ [ ] { }
#[derive(Clone, Copy)]
struct Mark;

impl Kind for Mark {
    ghost has = { λ kind. is_mark };

    fn has(self, c: u8) -> bool {
        (c == b'"') | (c == b'\\') | (is_opening(c) | is_closing(c))
    }
}

// Past octets that are no marks.
fn skip_unmarked(s: &[u8], from: usize) -> usize
    ensures { Alike s.now from result × (from ≤ result) }
{
    blocks::seek::<Mark, 64>(Mark, s, from)
}

// Past an octet of a string that does not end it: with what a backslash takes along, or with octets behind it that are
// no marks.
fn skip_char(s: &[u8], at: usize) -> usize
    requires at_in_bounds { at < length s.now }
    requires fact { get_or s.now at 0 ≡ quote → ⊥ }
    ensures by_index { (d : ℕ) → past_from (inside d) s.now result ≡ past_from (inside d) s.now at }
    ensures lower_bound { at < result }
{
    let next = at + 1;
    if s[at] == b'\\' {
        if next < s.len() {
            return next + 1;
        }
        return next;
    }
    skip_unmarked(s, next)
}

// Past the rest of a string and its closing quotation mark.
fn skip_string(s: &[u8], from: usize) -> usize
    ensures by_index { (d : ℕ) → past_from (outside d) s.now result ≡ past_from (inside d) s.now from }
    ensures lower_bound { from ≤ result }
{
    let mut at = from;
    while at < s.len() {
        if s[at] == b'"' {
            return at + 1;
        }
        at = skip_char(s, at);
    }
    at
}

// Where the search goes on, and how many brackets are open there.
#[derive(Clone, Copy)]
struct Next {
    at: usize,
    depth: usize,
}

// Past a string, a bracket that is not the one that is sought, or octets that are no marks.
fn turn(s: &[u8], at: usize, depth: usize) -> Next
    requires at_in_bounds { at < length s.now }
    requires depth_le_at { depth ≤ at }
    requires at_value { depth ≡ 0 → is_closing (get_or s.now at 0) ≡ false }
    ensures at_value_2 { past_from (outside result.depth) s.now result.at ≡ past_from (outside depth) s.now at }
    ensures at_lt_at { (at < result.at) × (result.depth ≤ result.at) }
{
    let c = s[at];
    let next = at + 1;
    if c == b'"' {
        return Next {
            at: skip_string(s, next),
            depth,
        };
    }
    if is_opening(c) {
        return Next {
            at: next,
            depth: depth + 1,
        };
    }
    if is_closing(c) {
        return Next {
            at: next,
            depth: depth - 1,
        };
    }
    Next {
        at: skip_unmarked(s, next),
        depth,
    }
}

// Behind the bracket that closes the object or array that was opened just before a position, or the text's end.
pub fn past(s: &[u8], from: usize) -> usize
    ensures { result ≡ past_nested s.now from }
{
    let mut at = from;
    let mut depth: usize = 0;
    while at < s.len() {
        if depth == 0 {
            if is_closing(s[at]) {
                return at + 1;
            }
        }
        let next = turn(s, at, depth);
        at = next.at;
        depth = next.depth;
    }
    at
}
