// The parameters of a recipient in two messages compared: the lines that their differences give. Of a side's entries the first ones are
// all recipients', and what was found of these is kept, so that it is found once for all recipients. What each function puts stands in
// specs/Parameters.
#![tactic(auto)]

ghost use Rattle.std.specs.Prelude.{◌≡◌, ◌++◌, ◌+◌, ◌*◌, ◌≤◌, ◌<◌, length, drop, IfSome};
ghost use Rattle.rows.specs.Rows.{name_in};
ghost use Rattle.same.specs.Inner.Walking.{work_room};
ghost use Rattle.matching.specs.Matching.{partner};
ghost use Rattle.matching.specs.Inner.Places.{found, EachReads};
ghost use Rattle.matching.specs.Inner.Sides.{texts, entries, common, entry_at, HasPrints};
ghost use Rattle.parameters.specs.Lines.{line};
ghost use Rattle.parameters.specs.Parameters.{side_of, other_value, pair_lines, left_lines, right_lines, parameter_lines};
ghost use Rattle.parameters.specs.Inner.Puts.{half_is};
ghost use Rattle.parameters.specs.Inner.Kept.{Valued, Pairs, Keeps, partner_of, differs, there};

use lines::{Half, Kind, Lines, missing};
use matching::Side;
use rows::{ask, layout};

pub mod lines;

// The number of a parameter's partner on the other side, and whether their values differ.
#[derive(Clone, Copy)]
struct Pair {
    at: usize,
    other: bool,
}

// What is kept of the parameters that are all recipients': the partners of those on the left and whether their values differ, and the
// partners of those on the right. There is room for M on each side.
#[derive(Drop)]
pub struct Kept<const M: usize> {
    partners: [Option<usize>; M],
    others: [bool; M],
    back: [Option<usize>; M],
}

// The side of an entry in a line.
fn half(side: &Side<'_, '_>, i: usize) -> Half
    requires { i < side.now.count }
    ensures { half_is result ≡ side_of (entry_at side.now i) }
{
    let from = i * layout::WIDTH;
    Half {
        origin: side.table[from + layout::ORIGIN],
        start: side.table[from + layout::VALUE_START],
        len: side.table[from + layout::VALUE_SIZE],
    }
}

// Whether the value of entry i on the left is another than that of its partner on the right, whose number is given; where there is none, it
// is not.
fn other(
    left: &Side<'_, '_>,
    i: usize,
    right: &Side<'_, '_>,
    partner: Option<usize>,
    work: &mut [u32],
) -> bool
    requires i_lt_count { i < left.now.count }
    requires left_reads { EachReads (texts left.now) (entries left.now) }
    requires right_reads { EachReads (texts right.now) (entries right.now) }
    requires work_room_in_bounds { work_room ≤ length work.old }
    ensures { result ≡ other_value (texts left.now) (texts right.now) (entry_at left.now i) (found (entries right.now) partner) }
{
    let Some(j) = partner else {
        return false;
    };
    if right.count <= j {
        return false;
    }
    let s = left.text(i);
    let t = right.text(j);
    !same::same(s, t, left.value(i), right.value(j), 12, work)
}

// For each entry on the left whether its value is another than that of its partner on the right, whose number is kept.
pub fn compare_all(
    left: &Side<'_, '_>,
    right: &Side<'_, '_>,
    partners: &[Option<usize>],
    others: &mut [bool],
    work: &mut [u32],
)
    requires left_reads { EachReads (texts left.now) (entries left.now) }
    requires right_reads { EachReads (texts right.now) (entries right.now) }
    requires left_in_bounds { left.now.count ≤ length partners.now }
    requires left_in_bounds_2 { left.now.count ≤ length others.old }
    requires work_room_in_bounds { work_room ≤ length work.old }
    ensures { Valued (texts left.now) (texts right.now) (entries left.now) (entries right.now) partners.now others.new }
{
    for k in 0..left.count {
        others[k] = other(left, k, right, partners[k], work);
    }
}

// The pair of entry i on the left, whose partner is sought from an entry on.
fn find(
    left: &Side<'_, '_>,
    i: usize,
    right: &Side<'_, '_>,
    from: usize,
    work: &mut [u32],
) -> Option<Pair>
    requires i_lt_count { i < left.now.count }
    requires from_le_count { from ≤ right.now.count }
    requires left_printed { HasPrints left.now }
    requires right_printed { HasPrints right.now }
    requires left_reads { EachReads (texts left.now) (entries left.now) }
    requires right_reads { EachReads (texts right.now) (entries right.now) }
    requires work_room_in_bounds { work_room ≤ length work.old }
    ensures { Pairs (texts left.now) (texts right.now) (entry_at left.now i) (drop from (entries right.now)) (entries right.now) result }
{
    let at = right.seek(from, left, i)?;
    let other = other(left, i, right, Some(at), work);
    Some(Pair { at, other })
}

// What is kept of two sides that have only what is all recipients'.
pub fn keep<const M: usize>(left: &Side<'_, '_>, right: &Side<'_, '_>, work: &mut [u32]) -> Kept<M>
    requires left_few { left.now.count ≤ M }
    requires right_few { right.now.count ≤ M }
    requires left_printed { HasPrints left.now }
    requires right_printed { HasPrints right.now }
    requires left_reads { EachReads (texts left.now) (entries left.now) }
    requires right_reads { EachReads (texts right.now) (entries right.now) }
    requires work_room_in_bounds { work_room ≤ length work.old }
    ensures { Keeps M (texts left.now) (texts right.now) (entries left.now) (entries right.now) result }
{
    let mut partners = [None; M];
    right.seek_all(left, &mut partners);
    let mut others = [false; M];
    compare_all(left, right, &partners, &mut others, work);
    let mut back = [None; M];
    left.seek_all(right, &mut back);
    Kept {
        partners,
        others,
        back,
    }
}

// The pair of entry i on the left. Of one that is all recipients' a partner among those on the right is kept; else its partner is among
// the recipient's own.
fn pair_of<const M: usize>(
    left: &Side<'_, '_>,
    i: usize,
    right: &Side<'_, '_>,
    kept: &Kept<M>,
    work: &mut [u32],
) -> Option<Pair>
    requires i_lt_count { i < left.now.count }
    requires keeps { Keeps M (texts left.now) (texts right.now) (common left.now) (common right.now) kept.now }
    requires left_printed { HasPrints left.now }
    requires right_printed { HasPrints right.now }
    requires left_reads { EachReads (texts left.now) (entries left.now) }
    requires right_reads { EachReads (texts right.now) (entries right.now) }
    requires work_room_in_bounds { work_room ≤ length work.old }
    ensures { Pairs (texts left.now) (texts right.now) (entry_at left.now i) (entries right.now) (entries right.now) result }
{
    if left.common <= i {
        return find(left, i, right, 0, work);
    }
    match kept.partners[i] {
        Some(at) => Some(Pair {
            at,
            other: kept.others[i],
        }),
        None => find(left, i, right, right.common, work),
    }
}

// The lines of entry i on the left and of its partner, if it has one.
fn put_pair<const N: usize>(
    left: &Side<'_, '_>,
    i: usize,
    right: &Side<'_, '_>,
    pair: Option<Pair>,
    recipient: u32,
    lines: &mut Lines<N>,
)
    requires i_lt_count { i < left.now.count }
    requires pair_in_bounds { IfSome pair (λ p. p.at < right.now.count) }
    requires room { length lines.old + 2 ≤ N }
    ensures { lines.new ≡ lines.old ++ pair_lines recipient (entry_at left.now i) (differs pair) (partner_of (entries right.now) pair) }
{
    let mine = half(left, i);
    let Some(pair) = pair else {
        lines.put(Kind::OnlyLeft, recipient, mine, missing());
        return;
    };
    let yours = half(right, pair.at);
    let moved = mine.origin != yours.origin;
    lines.put_if(moved, Kind::Moved, recipient, mine, yours);
    lines.put_if(pair.other, Kind::Value, recipient, mine, yours);
}

// Whether entry j on the right has a partner on the left. Of one that is all recipients' it is kept whether it has one among those on the
// left; else its partner is among the recipient's own.
fn has_partner<const M: usize>(
    left: &Side<'_, '_>,
    right: &Side<'_, '_>,
    j: usize,
    kept: &Kept<M>,
) -> bool
    requires j_lt_count { j < right.now.count }
    requires keeps { Keeps M (texts left.now) (texts right.now) (common left.now) (common right.now) kept.now }
    requires left_printed { HasPrints left.now }
    requires right_printed { HasPrints right.now }
    ensures { result ≡ there (partner (texts left.now) (name_in (texts right.now) (entry_at right.now j)) (entries left.now)) }
{
    if right.common <= j {
        return left.seek(0, right, j).is_some();
    }
    kept.back[j].is_some() || left.seek(left.common, right, j).is_some()
}

// The lines of a recipient's parameters, put behind the first ones.
pub fn put_recipient<const M: usize, const N: usize>(
    left: &Side<'_, '_>,
    right: &Side<'_, '_>,
    kept: &Kept<M>,
    recipient: u32,
    lines: &mut Lines<N>,
    work: &mut [u32],
)
    requires keeps { Keeps M (texts left.now) (texts right.now) (common left.now) (common right.now) kept.now }
    requires room { length lines.old + (2 * left.now.count + right.now.count) ≤ N }
    requires left_printed { HasPrints left.now }
    requires right_printed { HasPrints right.now }
    requires left_reads { EachReads (texts left.now) (entries left.now) }
    requires right_reads { EachReads (texts right.now) (entries right.now) }
    requires work_room_in_bounds { work_room ≤ length work.old }
    ensures lines { lines.new ≡ lines.old ++ parameter_lines (texts left.now) (texts right.now) (entries left.now) (entries right.now) recipient }
    ensures upper_bound { length lines.new ≤ length lines.old + (2 * left.now.count + right.now.count) }
{
    for i in 0..left.count {
        let pair = pair_of(left, i, right, kept, work);
        put_pair(left, i, right, pair, recipient, lines);
    }
    for j in 0..right.count {
        let alone = !has_partner(left, right, j, kept);
        lines.put_if(alone, Kind::OnlyRight, recipient, missing(), half(right, j));
    }
}
