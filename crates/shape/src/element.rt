// The elements of `recipients`, and the recipients themselves as numbers of a table.
ghost use Rattle.std.specs.Prelude.{◌≡◌, ◌+◌, ◌*◌, ◌≤◌, length};
ghost use Rattle.prelude.specs.Buffer.{written};
ghost use Rattle.prelude.specs.Limits.{levels, longest, most_recipients};
ghost use Rattle.grammar.specs.Grammar.{curly, square};
ghost use Rattle.grammar.specs.Bounds.{Every};
ghost use Rattle.grammar.specs.Reader.{elements_at};
ghost use Rattle.json_read.specs.Inner.Known.{KnownIn};
ghost use Rattle.prelude.specs.Any.{any};
ghost use Rattle.rows.specs.Inner.Views.{the_entries};
ghost use Rattle.prelude.specs.Refusals.{first, stage_of, as_stage};
ghost use Rattle.json_read.specs.Inner.Rows.{elements_left};
ghost use Rattle.shape.specs.Shape.{no_object, recipient_of};
ghost use Rattle.shape.specs.Recipients.{element_entries, element_order};
ghost use Rattle.shape.specs.Inner.Answers.{three, flat_recipients, starts_of, array_order, counted};
ghost use Rattle.shape.specs.Inner.Answers.{starts_order, passed_at, Leaves, LeavesAt, recipient_width};

use crate::held::component;
use crate::{member, number};
use json_read::member::Rows;
use prelude::limits::{LEVELS, MOST_RECIPIENTS};
use prelude::refusal::Refusal;
use rows::table::Entries;

// The recipient of the first entries, written from a position on.
pub(crate) fn put(members: Entries, into: &mut [usize], at: usize)
    requires { at + recipient_width ≤ length into.old }
    ensures { into.new ≡ written at (three (recipient_of (the_entries members.entry))) into.old }
{
    let header = members.value_of(number::HEADER);
    let key = component(members, number::ENCRYPTED_KEY);
    into[at] = header.start;
    into[at + 1] = key.start;
    into[at + 2] = key.len;
}

// Whether one of some elements is no object.
fn some_no_object(mut elements: Rows) -> bool
    ensures { result ≡ any no_object (elements_left elements.entry) }
{
    elements.any(|row| row.kind != 0)
}

// What is answered where all elements are objects, and no more than 8.
fn counted(count: usize) -> Result<usize, Refusal>
    ensures { as_stage result ≡ counted count }
{
    if count == 0 {
        return Err(Refusal::Shape);
    }
    Ok(count)
}

// 10 on `recipients` itself, and 11: where its elements start, and how many they are. They are read once.
pub(crate) fn walk(message: &[u8], at: usize, starts: &mut [usize]) -> Result<usize, Refusal>
    requires most_recipients_in_bounds { most_recipients ≤ length starts.old }
    requires known_in { KnownIn square levels message.now at }
    ensures value { as_stage result ≡ stage_of (first (array_order (elements_at levels message.now at))) (length (elements_at levels message.now at)) }
    ensures leaves { Leaves (starts_of (elements_at levels message.now at)) starts.old starts.new (as_stage result) }
{
    let mut elements = Rows::elements(message, at, LEVELS, true);
    let mut count: usize = 0;
    while let Some(row) = elements.next() {
        if row.kind != 0 {
            return Err(Refusal::Shape);
        }
        if count == MOST_RECIPIENTS {
            if some_no_object(elements) {
                return Err(Refusal::Shape);
            }
            return Err(Refusal::ManyRecipients);
        }
        starts[count] = row.value.start;
        count += 1;
    }
    counted(count)
}

// 8 to 10 on the element at a position: where it passes, its recipient is written from a position of the table on.
fn element(message: &[u8], at: usize, into: &mut [usize], to: usize) -> Result<usize, Refusal>
    requires message_len_bound { length message.now ≤ longest }
    requires recipient_width_in_bounds { to + recipient_width ≤ length into.old }
    requires known_in { KnownIn curly levels message.now at }
    ensures value { as_stage result ≡ stage_of (first (element_order message.now at)) (length (element_entries message.now at)) }
    ensures leaves_at { LeavesAt to (three (recipient_of (element_entries message.now at))) into.old into.new (as_stage result) }
{
    let list = crate::MEMBERS;
    let mut table = [0u32; rows::layout::HEADER_TABLE];
    let count = headers::object(message, at, 1, &list, &mut table, 0, true)?;
    let members = Entries {
        table: &table,
        count,
    };
    if member::wrong_element(message, members) {
        return Err(Refusal::Shape);
    }
    put(members, into, to);
    Ok(count)
}

// 8 to 10 on the elements at some starts, in turn: their recipients as numbers of the table, those before one that is
// refused, and how many they are.
pub(crate) fn elements(
    message: &[u8],
    starts: &[usize],
    into: &mut [usize],
) -> Result<usize, Refusal>
    requires message_len_bound { length message.now ≤ longest }
    requires recipient_width_in_bounds { length starts.now * recipient_width ≤ length into.old }
    requires every { Every (KnownIn curly levels message.now) starts.now }
    ensures value { as_stage result ≡ stage_of (first (starts_order message.now starts.now)) (length starts.now) }
    ensures into_after { into.new ≡ written 0 (flat_recipients (passed_at message.now starts.now)) into.old }
{
    let mut i: usize = 0;
    while i < starts.len() {
        element(message, starts[i], into, i * crate::RECIPIENT_WIDTH)?;
        i += 1;
    }
    Ok(starts.len())
}
