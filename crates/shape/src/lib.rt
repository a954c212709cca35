// The shape of a JSON message: its top level, and its recipients.
#![tactic(auto)]

ghost use Rattle.std.specs.Prelude.{◌≡◌, ◌≤◌, length};
ghost use Rattle.rows.specs.Tables.{header_table};
ghost use Rattle.rows.specs.Inner.Views.{the_entries};
ghost use Rattle.prelude.specs.Buffer.{written};
ghost use Rattle.prelude.specs.Limits.{longest};
ghost use Rattle.prelude.specs.Refusals.{first, stage_of, as_stage};
ghost use Rattle.shape.specs.Recipients.{top_entries, top_order, elements_order, recipients_in};
ghost use Rattle.shape.specs.Inner.Answers.{top_table, flat_recipients, written_in, recipients_room};

use json_read::Position;
use prelude::limits::{LEVELS, MOST_RECIPIENTS};
use prelude::refusal::Refusal;
use rows::table::Entries;

// The known members of a message, contents first.
pub const MEMBERS: [u8; 77] = *b"\x09\
    \x09\x0b\x06\x0d\x0a\x02\x03\x0a\x03\
    protected\
    unprotected\
    header\
    encrypted_key\
    recipients\
    iv\
    aad\
    ciphertext\
    tag";

// How many numbers a recipient has in a table (own header, key's start and length), and the room for all.
pub const RECIPIENT_WIDTH: usize = 3;

pub const RECIPIENTS_ROOM: usize = MOST_RECIPIENTS * RECIPIENT_WIDTH;

mod element;
pub mod held;
mod member;
mod number;

// 7, and 8 to 10 on the top level: its members as entries of the table, and how many they are. What a refusal leaves in the
// table is `top_table` too.
pub fn top(message: &[u8], table: &mut [u32]) -> Result<usize, Refusal>
    requires message_len_bound { length message.now ≤ longest }
    requires header_table_in_bounds { header_table ≤ length table.old }
    ensures value { as_stage result ≡ stage_of (first (top_order message.now)) (length (top_entries message.now)) }
    ensures table_after { table.new ≡ top_table message.now table.old }
{
    let Some(_) = json_read::judge(message, LEVELS) else {
        return Err(Refusal::Unread);
    };
    let list = MEMBERS;
    let at = Position { at: 0 }.skip_space(message).at;
    let count = headers::object(message, at, 1, &list, table, 0, true)?;
    let members = Entries {
        table: &table[..],
        count,
    };
    if member::wrong_top(message, members) {
        return Err(Refusal::Shape);
    }
    Ok(count)
}

// 10 on `recipients`, 11, and 8 to 10 on its elements: the recipients as numbers of the table, three each, and how many they
// are. The entries are those of a top level that has passed. Where an element is refused, those before it are written.
pub fn recipients(message: &[u8], members: Entries, into: &mut [usize]) -> Result<usize, Refusal>
    requires message_len_bound { length message.now ≤ longest }
    requires recipients_room_in_bounds { recipients_room ≤ length into.old }
    requires message_value { first (top_order message.now) ≡ 0 }
    requires members_value { the_entries members ≡ top_entries message.now }
    ensures value { as_stage result ≡ stage_of (first (elements_order message.now (the_entries members.entry))) (length (recipients_in message.now (the_entries members.entry))) }
    ensures into_after { into.new ≡ written 0 (flat_recipients (written_in message.now (the_entries members.entry))) into.old }
{
    if !members.present(number::RECIPIENTS) {
        element::put(members, into, 0);
        return Ok(1);
    }
    let mut starts = [0usize; MOST_RECIPIENTS];
    let at = members.value_of(number::RECIPIENTS).start;
    let n = element::walk(message, at, &mut starts)?;
    element::elements(message, &starts[..n], into)
}
