// What differs between two messages: each is judged and collected once, and the lines go to memory of its own first, so that the lent list is
// changed only where it holds them all.
#![tactic(auto)]

ghost use Rattle.std.specs.Prelude.{◌≡◌, ◌++◌, ◌+◌, ◌*◌, ◌≤◌, false, not, min, length};
ghost use Rattle.grammar.specs.Spellings.{equal};
ghost use Rattle.headers.specs.Answers.{place_of};
ghost use Rattle.headers.specs.Components.{octets_at};
ghost use Rattle.same.specs.Inner.Walking.{work_room};
ghost use Rattle.jwe.specs.Judge.{held};
ghost use Rattle.parameters.specs.Lines.{line_if};
ghost use Rattle.parameters.specs.Inner.Puts.{most_lines, kind_number, recipient_most};
ghost use Rattle.parameters.specs.Inner.Kept.{Keeps};
ghost use Rattle.differences.specs.Differences.{compared, texts_of, whole, up_to, message_lines, key_lines, recipient_lines, differences};
ghost use Rattle.differences.specs.Inner.Holding.{Fronted};
ghost use Rattle.differences.specs.Inner.Handing.{Answers};
ghost use Rattle.differences.specs.Answers.{both_accepted, as_answer, is_refused, Compares};

use jwe::held;
use message::Judged;
use parameters::Kept;
use parameters::lines::{self, Kind, Lines, MOST, missing};
use prelude::Place;
use prelude::limits::{HEADER_ROOM, MOST_MEMBERS, MOST_RECIPIENTS};
use prelude::refusal::Refusal;
use rows::layout;

mod message;

// So many parameters of a message are all recipients' at most: those of its protected header and those of its unprotected one.
const COMMON: usize = 2 * MOST_MEMBERS;

// Why no lines are given: a message is refused, or both, or the list is too short.
#[derive(Clone, Copy, Debug, PartialEq, Eq)]
pub enum Unanswered {
    Refused {
        left: Option<Refusal>,
        right: Option<Refusal>,
    },
    ShortOutput,
}

// Whether what stands at two places is spelled otherwise.
fn other(left: &[u8], q: Place, right: &[u8], p: Place) -> bool
    ensures { result ≡ not (equal (octets_at left.now (place_of q)) (octets_at right.now (place_of p))) }
{
    !prelude::equal(
        parts::part(left, q.start, q.len),
        parts::part(right, p.start, p.len),
    )
}

// A line of the whole message, where something holds.
fn put_whole(test: bool, kind: Kind, lines: &mut Lines<MOST>)
    requires { length lines.old + 1 ≤ most_lines }
    ensures lines { lines.new ≡ lines.old ++ line_if test (whole (kind_number kind)) }
    ensures upper_bound { length lines.new ≤ length lines.old + 1 }
{
    lines.put_if(test, kind, 0, missing(), missing());
}

// The lines of the whole message.
fn put_message(left: &Judged<'_>, right: &Judged<'_>, lines: &mut Lines<MOST>)
    requires { length lines.old + 7 ≤ most_lines }
    ensures lines { lines.new ≡ lines.old ++ message_lines (compared left.now.message.now) (compared right.now.message.now) }
    ensures upper_bound { length lines.new ≤ length lines.old + 7 }
{
    let (l, r) = (left.message, right.message);
    let (q, p) = (left.holds.components, right.holds.components);
    put_whole(left.holds.form != right.holds.form, Kind::Form, lines);
    put_whole(
        left.holds.recipients != right.holds.recipients,
        Kind::Recipients,
        lines,
    );
    put_whole(
        !prelude::equal(left.header, right.header),
        Kind::Header,
        lines,
    );
    put_whole(other(l, q.iv, r, p.iv), Kind::Iv, lines);
    put_whole(other(l, q.aad, r, p.aad), Kind::Aad, lines);
    put_whole(
        other(l, q.ciphertext, r, p.ciphertext),
        Kind::Ciphertext,
        lines,
    );
    put_whole(other(l, q.tag, r, p.tag), Kind::Tag, lines);
}

// The lines of the keys of the first recipients.
fn put_keys(left: &Judged<'_>, right: &Judged<'_>, both: usize, lines: &mut Lines<MOST>)
    requires both_le_left { both ≤ left.now.holds.recipients }
    requires both_le_right { both ≤ right.now.holds.recipients }
    requires room { length lines.old + both ≤ most_lines }
    ensures lines { lines.new ≡ lines.old ++ up_to (key_lines (compared left.now.message.now) (compared right.now.message.now)) both }
    ensures upper_bound { length lines.new ≤ length lines.old + both }
{
    for n in 0..both {
        let differs = other(left.message, left.key(n), right.message, right.key(n));
        lines.put_if(differs, Kind::Key, n as u32, missing(), missing());
    }
}

// The lines of the parameters of the first recipients, one after the other.
fn put_parameters(
    left: &Judged<'_>,
    left_table: &mut [u32],
    right: &Judged<'_>,
    right_table: &mut [u32],
    both: usize,
    kept: &Kept<COMMON>,
    lines: &mut Lines<MOST>,
    work: &mut [u32],
)
    requires fronted { Fronted left.now.message.now left.now.holds.common left_table.old }
    requires fronted_2 { Fronted right.now.message.now right.now.holds.common right_table.old }
    requires both_le_left { both ≤ left.now.holds.recipients }
    requires both_le_right { both ≤ right.now.holds.recipients }
    requires keeps { Keeps COMMON (texts_of (compared left.now.message.now)) (texts_of (compared right.now.message.now)) (held left.now.message.now).common (held right.now.message.now).common kept.now }
    requires room { length lines.old + both * recipient_most ≤ most_lines }
    requires work_room_in_bounds { work_room ≤ length work.old }
    ensures lines { lines.new ≡ lines.old ++ up_to (recipient_lines (compared left.now.message.now) (compared right.now.message.now)) both }
    ensures upper_bound { length lines.new ≤ length lines.old + both * recipient_most }
{
    for n in 0..both {
        let mine = left.gather(n, left_table);
        let yours = right.gather(n, right_table);
        parameters::put_recipient(
            &left.side(n, left_table, mine),
            &right.side(n, right_table, yours),
            kept,
            n as u32,
            lines,
            work,
        );
    }
}

// All lines, in order. The parameters that are all recipients' are matched and compared once.
fn put_all(
    left: &Judged<'_>,
    left_table: &mut [u32],
    right: &Judged<'_>,
    right_table: &mut [u32],
    lines: &mut Lines<MOST>,
    work: &mut [u32],
)
    requires fronted { Fronted left.now.message.now left.now.holds.common left_table.old }
    requires fronted_2 { Fronted right.now.message.now right.now.holds.common right_table.old }
    requires empty { length lines.old ≡ 0 }
    requires work_room_in_bounds { work_room ≤ length work.old }
    ensures lines { lines.new ≡ lines.old ++ differences (compared left.now.message.now) (compared right.now.message.now) }
    ensures upper_bound { length lines.new ≤ most_lines }
{
    let kept: Kept<COMMON> = parameters::keep(
        &left.front(left_table),
        &right.front(right_table),
        work,
    );
    let both = left.holds.recipients.min(right.holds.recipients);
    put_message(left, right, lines);
    put_keys(left, right, both, lines);
    put_parameters(
        left,
        left_table,
        right,
        right_table,
        both,
        &kept,
        lines,
        work,
    );
}

// How many lines there are where both messages are accepted: they are copied to the list where it holds them all.
fn hand_out(
    left: &Judged<'_>,
    left_table: &mut [u32],
    right: &Judged<'_>,
    right_table: &mut [u32],
    list: &mut [u32],
) -> Result<usize, Unanswered>
    requires fronted { Fronted left.now.message.now left.now.holds.common left_table.old }
    requires fronted_2 { Fronted right.now.message.now right.now.holds.common right_table.old }
    ensures answers { Answers (differences (compared left.now.message.now) (compared right.now.message.now)) list.old (as_answer result) list.new }
    ensures accepted { is_refused result ≡ false }
{
    let mut lines = Lines::<MOST>::new();
    let mut work = [0u32; same::WORK_ROOM];
    put_all(left, left_table, right, right_table, &mut lines, &mut work);
    let count = lines.len();
    if list.len() < count * lines::WIDTH {
        return Err(Unanswered::ShortOutput);
    }
    lines.hand_out(list);
    Ok(count)
}

// What differs between two messages: how many lines there are. `known` lists the extension names that the caller knows. Both are judged as
// for recipient 0. Where both are accepted and the list holds all lines, it begins with them, eight numbers each, and its rest is
// unchanged; elsewhere all of it is.
pub fn compare(
    left: &[u8],
    right: &[u8],
    known: &[u8],
    list: &mut [u32],
) -> Result<usize, Unanswered>
    ensures compares { Compares left.now right.now known.now list.old (as_answer result) list.new }
    ensures refused { is_refused result ≡ not (both_accepted left.now right.now known.now) }
{
    let mut left_text = [0u8; HEADER_ROOM];
    let mut left_table = [0u32; layout::RECIPIENT_TABLE];
    let mut left_of = [0usize; shape::RECIPIENTS_ROOM];
    let mut left_own = [0u32; held::OWN_TABLE];
    let mut left_counts = [0usize; MOST_RECIPIENTS];
    let l = jwe::hold(
        left,
        known,
        &mut left_text,
        &mut left_table,
        &mut left_of,
        &mut left_own,
        &mut left_counts,
    );
    let mut right_text = [0u8; HEADER_ROOM];
    let mut right_table = [0u32; layout::RECIPIENT_TABLE];
    let mut right_of = [0usize; shape::RECIPIENTS_ROOM];
    let mut right_own = [0u32; held::OWN_TABLE];
    let mut right_counts = [0usize; MOST_RECIPIENTS];
    let r = jwe::hold(
        right,
        known,
        &mut right_text,
        &mut right_table,
        &mut right_of,
        &mut right_own,
        &mut right_counts,
    );
    let refused = Unanswered::Refused {
        left: l.err(),
        right: r.err(),
    };
    let Ok(mine) = l else {
        return Err(refused);
    };
    let Ok(yours) = r else {
        return Err(refused);
    };
    let mine = Judged {
        message: left,
        header: &left_text[..mine.header],
        holds: mine,
        of: &left_of,
        own: &left_own,
        counts: &left_counts,
    };
    let yours = Judged {
        message: right,
        header: &right_text[..yours.header],
        holds: yours,
        of: &right_of,
        own: &right_own,
        counts: &right_counts,
    };
    hand_out(&mine, &mut left_table, &yours, &mut right_table, list)
}
