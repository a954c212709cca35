// The compact serialization (RFC 7516, section 7.1).
ghost use Rattle.std.specs.Prelude.{◌≡◌, true, false, List, ℕ, ◌+◌, ◌≤◌, length};
ghost use Rattle.names.specs.Names.{names, filled};
ghost use Rattle.prelude.specs.Limits.{header_room, longest, most_recipients};
ghost use Rattle.prelude.specs.Any.{any};
ghost use Rattle.rows.specs.Tables.{header_table};
ghost use Rattle.headers.specs.Components.{misspelled, places};
ghost use Rattle.jwe.specs.Compact.{between, four_stops, compact_components, compact_order};
ghost use Rattle.shape.specs.Inner.Answers.{recipients_room};
ghost use Rattle.jwe.specs.Judge.{compact_held};
ghost use Rattle.jwe.specs.Inner.Outcomes.{compact_outcome};
ghost use Rattle.jwe.specs.Inner.Stages.{Judges};
ghost use Rattle.jwe.specs.Inner.Holding.{HoldsBy};
ghost use Rattle.headers.specs.Answers.{code_place, code_components, components_of};
ghost use Rattle.jwe.specs.Answers.{split_of, as_result, as_holding};

use crate::{Holding, Reading};
use headers::Components;
use prelude::Place;
use prelude::refusal::Refusal;
use rows::table::{Entries, Headers, Texts};

// What stands between two full stops.
fn between(a: usize, b: usize) -> Place
    requires { a + 1 ≤ b }
    ensures { result ≡ code_place (between a b) }
{
    Place {
        start: a + 1,
        len: b - (a + 1),
    }
}

// The components between full stops; none where there are not exactly four full stops.
pub(crate) fn split(message: &[u8]) -> Option<Components>
    requires { length message.now ≤ longest }
    ensures { result ≡ split_of message.now }
{
    let n = message.len();
    let first = parts::seek(message, 0, 46);
    let second = parts::seek(message, first + 1, 46);
    let third = parts::seek(message, second + 1, 46);
    let fourth = parts::seek(message, third + 1, 46);
    let last = parts::seek(message, fourth + 1, 46);
    if n <= fourth {
        return None;
    }
    if last != n {
        return None;
    }
    Some(Components {
        protected: Place {
            start: 0,
            len: first,
        },
        key: between(first, second),
        iv: between(second, third),
        aad: Place { start: 0, len: 0 },
        ciphertext: between(third, fourth),
        tag: between(fourth, n),
    })
}

// 5: whether a component is not base64url.
pub(crate) fn misspelled(message: &[u8], q: Components) -> bool
    ensures { result ≡ any (misspelled message.now) (places (components_of q)) }
{
    if headers::misspelled(message, q.protected) {
        return true;
    }
    if headers::misspelled(message, q.key) {
        return true;
    }
    if headers::misspelled(message, q.iv) {
        return true;
    }
    if headers::misspelled(message, q.aad) {
        return true;
    }
    if headers::misspelled(message, q.ciphertext) {
        return true;
    }
    headers::misspelled(message, q.tag)
}

// 6 to 19, on components that have passed 4 and 5.
fn judge_header(
    message: &[u8],
    q: Components,
    known: &[u8],
    recipient: u32,
    text: &mut [u8],
    table: &mut [u32],
) -> Result<Reading, Refusal>
    requires message_value { four_stops message.now ≡ true }
    requires q_value { q ≡ code_components (compact_components message.now) }
    requires q_value_2 { any (misspelled message.now) (places (components_of q)) ≡ false }
    requires known_value { filled known.now ≡ true }
    requires text_len { length text.old ≡ header_room }
    requires header_table_in_bounds { header_table ≤ length table.old }
    ensures { Judges message.now (compact_order message.now (names known.now) recipient) (compact_outcome message.now) (as_result result) text.old text.new table.old table.new }
{
    let n = headers::header(message, q.protected, text)?;
    let count = headers::protected_entries(&text[..n], table)?;
    let texts = Texts {
        header: &text[..n],
        shared: message,
        own: message,
    };
    let entries = Entries {
        table: &table[..],
        count,
    };
    let only = Headers { texts, entries };
    let mode = jose::judge::judge(only, known, headers::sizes(q))?;
    if 1 <= recipient {
        return Err(Refusal::NoSuchRecipient);
    }
    Ok(Reading {
        form: 0,
        recipients: 1,
        mode: mode as u32,
        components: q,
        header: n,
        parameters: count,
    })
}

// A compact message judged in document 01's order, from 4 on; `text` and `table` are room for the decoded header and for
// its entries.
pub(crate) fn judge(
    message: &[u8],
    known: &[u8],
    recipient: u32,
    text: &mut [u8],
    table: &mut [u32],
) -> Result<Reading, Refusal>
    requires message_len_bound { length message.now ≤ longest }
    requires known_value { filled known.now ≡ true }
    requires text_len { length text.old ≡ header_room }
    requires header_table_in_bounds { header_table ≤ length table.old }
    ensures { Judges message.now (compact_order message.now (names known.now) recipient) (compact_outcome message.now) (as_result result) text.old text.new table.old table.new }
{
    let q = split(message).ok_or(Refusal::FullStops)?;
    if misspelled(message, q) {
        return Err(Refusal::Misspelled);
    }
    judge_header(message, q, known, recipient, text, table)
}

// A compact message judged, and what it holds: its one recipient has its key's place, and no parameters of its own.
pub(crate) fn hold(
    message: &[u8],
    known: &[u8],
    text: &mut [u8],
    table: &mut [u32],
    of: &mut [usize],
    counts: &mut [usize],
) -> Result<Holding, Refusal>
    requires message_len_bound { length message.now ≤ longest }
    requires known_value { filled known.now ≡ true }
    requires text_len { length text.old ≡ header_room }
    requires header_table_in_bounds { header_table ≤ length table.old }
    requires of_len { length of.old ≡ recipients_room }
    requires counts_len { length counts.old ≡ most_recipients }
    ensures { (own : List ℕ) → HoldsBy message.now (compact_order message.now (names known.now) 0)
        (compact_held message.now) (as_holding result) text.new table.new of.new own
        counts.new }
{
    let reading = judge(message, known, 0, text, table)?;
    let q = reading.components;
    of[1] = q.key.start;
    of[2] = q.key.len;
    counts[0] = 0;
    Ok(Holding {
        form: 0,
        recipients: 1,
        components: q,
        header: reading.header,
        common: reading.parameters,
    })
}
