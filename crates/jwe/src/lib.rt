// The reader: from octets to an answer, by document 01's rules in document 01's order.
#![tactic(auto)]

ghost use Rattle.std.specs.Prelude.{◌≡◌, true, cond, ◌≤◌, length};
ghost use Rattle.prelude.specs.Limits.{header_room, list_room, longest, most_recipients};
ghost use Rattle.names.specs.Names.{names, filled, sound};
ghost use Rattle.grammar.specs.Reader.{opens_object};
ghost use Rattle.jwe.specs.Compact.{compact_order};
ghost use Rattle.jwe.specs.General.{json_order};
ghost use Rattle.rows.specs.Tables.{recipient_table};
ghost use Rattle.shape.specs.Inner.Answers.{recipients_room};
ghost use Rattle.jwe.specs.Judge.{call, held, refusal, outcome, result_of, header_after, list_after};
ghost use Rattle.jwe.specs.Answers.{numbers, as_result, as_holding};
ghost use Rattle.jwe.specs.Inner.Stages.{table_room, own_table, Judges};
ghost use Rattle.jwe.specs.Inner.Holding.{Holds};

use headers::Components;
use prelude::limits::{HEADER_ROOM, LIST_ROOM, LONGEST};
use prelude::refusal::Refusal;
use rows::table::Entries;

mod compact;
mod general;
pub mod held;

// What the reader answers of an accepted message (document 01, 'What the reader hands out').
#[derive(Clone, Copy)]
pub struct Reading {
    pub form: u32,
    pub recipients: usize,
    pub mode: u32,
    pub components: Components,
    pub header: usize,
    pub parameters: usize,
}

// What an accepted message holds, for any recipient (specs/Judge `Held`): its form, how many recipients it has, the components but the
// keys of JSON recipients, how long the decoded protected header is, and how many parameters are all recipients'. The rest stands in the
// tables that `hold` fills.
#[derive(Clone, Copy)]
pub struct Holding {
    pub form: u32,
    pub recipients: usize,
    pub components: Components,
    pub header: usize,
    pub common: usize,
}

// A message judged in document 01's order, from 4 on: a JSON message where it opens an object, a compact one elsewhere.
fn judge(
    message: &[u8],
    known: &[u8],
    recipient: u32,
    text: &mut [u8],
    table: &mut [u32],
) -> Result<Reading, Refusal>
    requires message_len_bound { length message.now ≤ longest }
    requires known_value { filled known.now ≡ true }
    requires text_len { length text.old ≡ header_room }
    requires table_len { length table.old ≡ table_room (opens_object message.now) }
    ensures { Judges message.now (cond (opens_object message.now) (json_order message.now (names known.now) recipient) (compact_order message.now (names known.now) recipient)) (outcome message.now recipient) (as_result result) text.old text.new table.old table.new }
{
    if json_read::opens_object(message) {
        return general::judge(message, known, recipient, text, table);
    }
    compact::judge(message, known, recipient, text, table)
}

// A message that has passed 1 to 3, judged and handed out: what judging wrote to memory of its own is copied to what was lent. The
// table's contents are free afterwards; it is the caller's own.
fn hand_over(
    message: &[u8],
    known: &[u8],
    recipient: u32,
    table: &mut [u32],
    header: &mut [u8],
    list: &mut [u32],
) -> Result<Reading, Refusal>
    requires message_len_bound { length message.now ≤ longest }
    requires known_value { sound known.now ≡ true }
    requires table_len { length table.old ≡ table_room (opens_object message.now) }
    requires header_room_in_bounds { header_room ≤ length header.old }
    requires list_room_in_bounds { list_room ≤ length list.old }
    ensures r_value { numbers (as_result result)
        ≡ result_of (call message.now known.now recipient
        (length header.old) (length list.old)) }
    ensures header_after { header.new
        ≡ header_after (call message.now known.now recipient
        (length header.old) (length list.old)) header.old }
    ensures list_after { list.new
        ≡ list_after (call message.now known.now recipient
        (length header.old) (length list.old)) list.old }
{
    let mut text = [0u8; HEADER_ROOM];
    let reading = judge(message, known, recipient, &mut text, table)?;
    prelude::copy_octets(&text[..reading.header], header, 0);
    let entries = Entries {
        table: &table[..],
        count: reading.parameters,
    };
    entries.lay(list);
    Ok(reading)
}

// Reads a message for a recipient. `known` lists the extension names that the caller knows. Accepted, the header buffer
// begins with the decoded protected header and the list with six numbers a parameter; the rest of both is unchanged. Refused, both
// are unchanged.
pub fn read(
    message: &[u8],
    known: &[u8],
    recipient: u32,
    header: &mut [u8],
    list: &mut [u32],
) -> Result<Reading, Refusal>
    ensures r_value { numbers (as_result result)
        ≡ result_of (call message.now known.now recipient
        (length header.old) (length list.old)) }
    ensures header_after { header.new
        ≡ header_after (call message.now known.now recipient
        (length header.old) (length list.old)) header.old }
    ensures list_after { list.new
        ≡ list_after (call message.now known.now recipient
        (length header.old) (length list.old)) list.old }
{
    if header.len() < HEADER_ROOM {
        return Err(Refusal::ShortOutput);
    }
    if list.len() < LIST_ROOM {
        return Err(Refusal::ShortOutput);
    }
    if LONGEST < message.len() {
        return Err(Refusal::LongMessage);
    }
    if !names::sound(known) {
        return Err(Refusal::KnownNames);
    }
    if json_read::opens_object(message) {
        let mut three = [0u32; rows::layout::RECIPIENT_TABLE];
        return hand_over(message, known, recipient, &mut three, header, list);
    }
    let mut one = [0u32; rows::layout::HEADER_TABLE];
    hand_over(message, known, recipient, &mut one, header, list)
}

// A message judged once for all its recipients, as `read` judges it for the first one, and what it holds left in the lent tables: the
// decoded protected header in `text`, the parameters that are all recipients' at the start of `table`, and of each recipient what
// module `held` reads. Where the message is refused the contents of all five are free.
pub fn hold(
    message: &[u8],
    known: &[u8],
    text: &mut [u8],
    table: &mut [u32],
    of: &mut [usize],
    own: &mut [u32],
    counts: &mut [usize],
) -> Result<Holding, Refusal>
    requires text_len { length text.old ≡ header_room }
    requires table_len { length table.old ≡ recipient_table }
    requires of_len { length of.old ≡ recipients_room }
    requires own_len { length own.old ≡ own_table }
    requires counts_len { length counts.old ≡ most_recipients }
    ensures number_value { (as_holding result).number ≡ refusal (call message.now known.now 0 header_room list_room) }
    ensures fact { ((as_holding result).number ≡ 0 → Holds message.now (held message.now) (as_holding result) text.new
        table.new of.new own.new counts.new) }
{
    if LONGEST < message.len() {
        Err(Refusal::LongMessage)
    } else if !names::sound(known) {
        Err(Refusal::KnownNames)
    } else if json_read::opens_object(message) {
        general::hold(message, known, text, table, of, own, counts)
    } else {
        compact::hold(message, known, text, table, of, counts)
    }
}
