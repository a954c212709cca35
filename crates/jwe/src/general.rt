// The JSON serialization, general and flattened (RFC 7516, section 7.2). A table of entries holds eight numbers
// for each; a table of recipients three: where the own header stands, the key's start and its length. What each
// function answers stands in specs/Inner/Stages.
ghost use Rattle.std.specs.Prelude.{◌≡◌, true, false, map, ℕ, ◌+◌, ◌*◌, ◌≤◌, ◌<◌, length, drop, get_or};
ghost use Rattle.prelude.specs.Limits.{header_room, longest, most_members, most_recipients};
ghost use Rattle.names.specs.Names.{names, filled};
ghost use Rattle.prelude.specs.Any.{any};
ghost use Rattle.rows.specs.Rows.{read_texts};
ghost use Rattle.rows.specs.Tables.{entries_of, header_table, recipient_table, width};
ghost use Rattle.rows.specs.Inner.Prints.{collected_table, Printed};
ghost use Rattle.prelude.specs.Refusals.{first, stage_of, as_stage};
ghost use Rattle.headers.specs.Components.{absent, misspelled};
ghost use Rattle.headers.specs.Headers.{header_text, protected_entries, header_entries, object_order};
ghost use Rattle.headers.specs.Answers.{place_of, components_of, header_buffer};
ghost use Rattle.shape.specs.Inner.Answers.{recipient_width, recipients_room, top_in};
ghost use Rattle.jwe.specs.General.{all_places, json_later, json_order};
ghost use Rattle.jwe.specs.Judge.{accepted, json_held, outcome_for};
ghost use Rattle.jwe.specs.Inner.Outcomes.{json_outcome};
ghost use Rattle.jwe.specs.Answers.{numbers, reading_of, as_result, holding_of, as_holding};
ghost use Rattle.jose.specs.ContentAlgorithm.{differing};
ghost use Rattle.jose.specs.Inner.Content.{named_in};
ghost use Rattle.jwe.specs.Inner.Stages.{recipients_of, Owned, LeavesOwn, text_tests, protected_tests, own_tests, rule_tests};
ghost use Rattle.jwe.specs.Inner.Stages.{KeepsFront, own_contents, ruled_tests};
ghost use Rattle.jwe.specs.Inner.Stages.{HeaderKnown, HeadersKnown, all_tests, own_table, Judges};
ghost use Rattle.jwe.specs.Inner.Holding.{Holds, HoldsBy, Gathers, held_of};

use crate::{Holding, Reading, held};
use headers::Components;
use jose::lists::ENC;
use json_read::Position;
use prelude::Place;
use prelude::limits::{MOST_MEMBERS, MOST_RECIPIENTS};
use prelude::refusal::Refusal;
use rows::layout;
use rows::table::{Entries, Headers, Texts};
use shape::held::Top;

// 5 on the recipients' keys.
fn keys_misspelled(message: &[u8], of: &[usize], number: usize) -> bool
    requires { number * recipient_width ≤ length of.now }
    ensures { result ≡ any (misspelled message.now) (map (λ q. q.key) (recipients_of number of.now)) }
{
    let mut i: usize = 0;
    while i < number {
        if headers::misspelled(message, held::key(of, i)) {
            return true;
        }
        i += 1;
    }
    false
}

// 5 on all components: those of the top level, and the keys.
fn misspelled(message: &[u8], q: Components, of: &[usize], number: usize) -> bool
    requires { number * recipient_width ≤ length of.now }
    ensures { result ≡ any (misspelled message.now) (all_places (components_of q) (recipients_of number of.now)) }
{
    if headers::misspelled(message, q.protected) {
        return true;
    }
    if headers::misspelled(message, q.iv) {
        return true;
    }
    if headers::misspelled(message, q.aad) {
        return true;
    }
    if headers::misspelled(message, q.ciphertext) {
        return true;
    }
    if headers::misspelled(message, q.tag) {
        return true;
    }
    keys_misspelled(message, of, number)
}

// 6 and 7 on the protected header, if it is there: it is decoded into the buffer, and how long it is, 0 where there is none.
fn decoded(message: &[u8], there: bool, place: Place, text: &mut [u8]) -> Result<usize, Refusal>
    requires place_value { misspelled message.now (place_of place) ≡ false }
    requires place_value_2 { there ≡ false → place_of place ≡ absent }
    requires text_len { length text.old ≡ header_room }
    ensures value { as_stage result ≡ stage_of (first (text_tests there (header_text message.now (place_of place)))) (length (header_text message.now (place_of place))) }
    ensures text_after { text.new ≡ header_buffer (header_text message.now (place_of place)) text.old }
{
    if !there {
        return Ok(0);
    }
    headers::header(message, place, text)
}

// 10 where the protected header is there and has no member; 8 and 9 on it: its parameters as entries of
// the table. Where it has none, 8 and 9 pass, so that 10 is asked after them.
fn protected(header: &[u8], there: bool, table: &mut [u32]) -> Result<usize, Refusal>
    requires header_len_bound { length header.now ≤ longest }
    requires header_table_in_bounds { header_table ≤ length table.old }
    ensures value { as_stage result ≡ stage_of (first (protected_tests there header.now)) (length (protected_entries header.now)) }
    ensures table_after { table.new ≡ collected_table 0 header.now (protected_entries header.now) table.old }
{
    let list = jose::lists::REGISTERED;
    let at = Position { at: 0 }.skip_space(header).at;
    let count = headers::object(header, at, 0, &list, table, 0, false)?;
    if there {
        if count == 0 {
            return Err(Refusal::Shape);
        }
    }
    Ok(count)
}

// 8 and 9 on a header that stands in the message, if its start is not 0: its parameters as entries of the
// table from the entry `from` on.
fn unprotected(
    message: &[u8],
    start: usize,
    origin: u32,
    table: &mut [u32],
    from: usize,
) -> Result<usize, Refusal>
    requires message_len_bound { length message.now ≤ longest }
    requires header_table_in_bounds { from * width + header_table ≤ length table.old }
    requires header_known { HeaderKnown message.now start }
    ensures value { as_stage result ≡ stage_of (first (object_order message.now (header_entries message.now origin start))) (length (header_entries message.now origin start)) }
    ensures table_after { table.new ≡ collected_table from message.now (header_entries message.now origin start) table.old }
{
    if start == 0 {
        return Ok(0);
    }
    let list = jose::lists::REGISTERED;
    headers::object(message, start, origin, &list, table, from, true)
}

// 8 and 9 on each recipient's own header: its parameters as entries of a table, 32 entries apart, and how
// many they are.
fn own_headers(
    message: &[u8],
    of: &[usize],
    number: usize,
    own: &mut [u32],
    counts: &mut [usize],
) -> Result<usize, Refusal>
    requires message_len_bound { length message.now ≤ longest }
    requires number_le_most_recipients { number ≤ most_recipients }
    requires recipient_width_in_bounds { number * recipient_width ≤ length of.now }
    requires own_len { length own.old ≡ own_table }
    requires counts_len { length counts.old ≡ most_recipients }
    requires headers_known { HeadersKnown message.now (recipients_of number of.now) }
    ensures value { as_stage result ≡ stage_of (first (own_tests message.now (recipients_of number of.now))) number }
    ensures leaves_own { LeavesOwn number message.now of.now own.new counts.new (as_stage result) }
{
    let mut i: usize = 0;
    while i < number {
        counts[i] = unprotected(
            message,
            of[i * shape::RECIPIENT_WIDTH],
            2,
            own,
            i * MOST_MEMBERS,
        )?;
        i += 1;
    }
    Ok(number)
}

// 12 to 18 on each recipient in turn. The first entries of the table, which are all recipients', stay as they are.
fn rules(
    header: &[u8],
    message: &[u8],
    known: &[u8],
    q: Components,
    of: &[usize],
    number: usize,
    own: &[u32],
    counts: &[usize],
    table: &mut [u32],
    front: usize,
) -> Result<usize, Refusal>
    requires known_value { filled known.now ≡ true }
    requires number_le_most_recipients { number ≤ most_recipients }
    requires recipient_width_in_bounds { number * recipient_width ≤ length of.now }
    requires own_len { length own.now ≡ own_table }
    requires counts_len { length counts.now ≡ most_recipients }
    requires owned { Owned number message.now of.now own.now counts.now }
    requires header_table_in_bounds { front * width + header_table ≤ length table.old }
    requires printed { Printed (read_texts header.now message.now) front table.old }
    ensures value { as_stage result ≡ stage_of (first (rule_tests (names known.now) header.now message.now (entries_of front table.old) (components_of q) (recipients_of number of.now))) number }
    ensures keeps_front { KeepsFront (read_texts header.now message.now) front table.old table.new }
{
    let mut i: usize = 0;
    while i < number {
        let count = held::gather(own, counts, i, table, front);
        let sizes = headers::sizes(headers::with_key(q, held::key(of, i)));
        let texts = Texts {
            header,
            shared: message,
            own: message,
        };
        let entries = Entries {
            table: &table[..],
            count,
        };
        let all = Headers { texts, entries };
        jose::judge::judge(all, known, sizes)?;
        i += 1;
    }
    Ok(number)
}

// Where the content algorithm of a recipient's own header stands.
fn own_content(own: &[u32], counts: &[usize], i: usize) -> Option<Place>
    requires i_lt_most_recipients { i < most_recipients }
    requires own_len { length own.now ≡ own_table }
    requires counts_len { length counts.now ≡ most_recipients }
    requires i_bound { get_or counts.now i 0 ≤ most_members }
    ensures { result ≡ named_in (entries_of (get_or counts.now i 0) (drop (i * header_table) own.now)) }
{
    let from = i * layout::HEADER_TABLE;
    let entries = Entries {
        table: &own[from..],
        count: counts[i],
    };
    jose::content::sole(entries)
}

// 21 on own headers: whether the content algorithm of one differs from that of recipient `with`.
fn contents_differ(
    message: &[u8],
    own: &[u32],
    counts: &[usize],
    number: usize,
    with: usize,
) -> bool
    requires number_le_most_recipients { number ≤ most_recipients }
    requires own_len { length own.now ≡ own_table }
    requires counts_len { length counts.now ≡ most_recipients }
    requires by_index { (k : ℕ) → k < number → get_or counts.now k 0 ≤ most_members }
    ensures { result ≡ differing «with» (own_contents message.now own.now counts.now 0 number) }
{
    if number <= with {
        return false;
    }
    let asked = own_content(own, counts, with);
    let mut k: usize = 0;
    while k < number {
        let other = own_content(own, counts, k);
        if jose::content::differ(message, asked, message, other) {
            return true;
        }
        k += 1;
    }
    false
}

// 12 to 18 on each recipient in turn, and 21: where a header that all of them share has `enc`, no two can differ. The first entries
// of the table, which are all recipients', stay as they are.
fn ruled(
    header: &[u8],
    message: &[u8],
    known: &[u8],
    q: Components,
    of: &[usize],
    number: usize,
    own: &[u32],
    counts: &[usize],
    table: &mut [u32],
    front: usize,
) -> Result<usize, Refusal>
    requires known_value { filled known.now ≡ true }
    requires number_le_most_recipients { number ≤ most_recipients }
    requires recipient_width_in_bounds { number * recipient_width ≤ length of.now }
    requires own_len { length own.now ≡ own_table }
    requires counts_len { length counts.now ≡ most_recipients }
    requires owned { Owned number message.now of.now own.now counts.now }
    requires header_table_in_bounds { front * width + header_table ≤ length table.old }
    requires printed { Printed (read_texts header.now message.now) front table.old }
    ensures value { as_stage result ≡ stage_of (first (ruled_tests (names known.now) header.now message.now (entries_of front table.old) (components_of q) (recipients_of number of.now))) number }
    ensures keeps_front { KeepsFront (read_texts header.now message.now) front table.old table.new }
{
    rules(
        header, message, known, q, of, number, own, counts, table, front,
    )?;
    let shared = Entries {
        table: &table[..],
        count: front,
    };
    if shared.present(ENC) {
        return Ok(number);
    }
    if contents_differ(message, own, counts, number, 0) {
        return Err(Refusal::ContentAlgorithms);
    }
    Ok(number)
}

// All recipients judged: 8 and 9 on their own headers, whose parameters are left in a table, 12 to 18 on each, and 21. The first
// entries of the working table, which are all recipients', stay as they are.
fn judged(
    header: &[u8],
    message: &[u8],
    known: &[u8],
    q: Components,
    of: &[usize],
    number: usize,
    own: &mut [u32],
    counts: &mut [usize],
    table: &mut [u32],
    front: usize,
) -> Result<usize, Refusal>
    requires message_len_bound { length message.now ≤ longest }
    requires known_value { filled known.now ≡ true }
    requires number_le_most_recipients { number ≤ most_recipients }
    requires recipient_width_in_bounds { number * recipient_width ≤ length of.now }
    requires own_len { length own.old ≡ own_table }
    requires counts_len { length counts.old ≡ most_recipients }
    requires header_table_in_bounds { front * width + header_table ≤ length table.old }
    requires printed { Printed (read_texts header.now message.now) front table.old }
    requires headers_known { HeadersKnown message.now (recipients_of number of.now) }
    ensures value { as_stage result ≡ stage_of (first (all_tests (names known.now) header.now message.now (entries_of front table.old) (components_of q) (recipients_of number of.now))) number }
    ensures leaves_own { LeavesOwn number message.now of.now own.new counts.new (as_stage result) }
    ensures keeps_front { KeepsFront (read_texts header.now message.now) front table.old table.new }
{
    own_headers(message, of, number, own, counts)?;
    ruled(
        header, message, known, q, of, number, own, counts, table, front,
    )
}

// From the protected header on, all components being base64url: the decoded header, the parameters that are all recipients' and
// those of each are left in the lent tables.
fn shaped(
    message: &[u8],
    known: &[u8],
    top: Top,
    of: &[usize],
    number: usize,
    text: &mut [u8],
    table: &mut [u32],
    own: &mut [u32],
    counts: &mut [usize],
) -> Result<Holding, Refusal>
    requires message_len_bound { length message.now ≤ longest }
    requires known_value { filled known.now ≡ true }
    requires le_number { 1 ≤ number }
    requires number_le_most_recipients { number ≤ most_recipients }
    requires recipient_width_in_bounds { number * recipient_width ≤ length of.now }
    requires top_value { misspelled message.now (top_in top).components.protected ≡ false }
    requires top_value_2 { (top_in top).protected ≡ false → (top_in top).components.protected ≡ absent }
    requires text_len { length text.old ≡ header_room }
    requires table_len { length table.old ≡ recipient_table }
    requires own_len { length own.old ≡ own_table }
    requires counts_len { length counts.old ≡ most_recipients }
    requires header_known { HeaderKnown message.now (top_in top).shared }
    requires headers_known { HeadersKnown message.now (recipients_of number of.now) }
    ensures { HoldsBy message.now
        (json_later (names known.now) message.now (top_in top) (recipients_of number of.now) 0)
        (held_of message.now (top_in top) (recipients_of number of.now))
        (as_holding result) text.new table.new of.now own.new counts.new }
{
    let h = decoded(message, top.protected, top.components.protected, text)?;
    let p = protected(&text[..h], top.protected, table)?;
    let s = unprotected(message, top.shared, 1, table, p)?;
    let q = top.components;
    judged(
        &text[..h],
        message,
        known,
        q,
        of,
        number,
        own,
        counts,
        table,
        p + s,
    )?;
    Ok(Holding {
        form: top.form,
        recipients: number,
        components: q,
        header: h,
        common: p + s,
    })
}

// A JSON message judged, and what it holds.
pub(crate) fn hold(
    message: &[u8],
    known: &[u8],
    text: &mut [u8],
    table: &mut [u32],
    of: &mut [usize],
    own: &mut [u32],
    counts: &mut [usize],
) -> Result<Holding, Refusal>
    requires message_len_bound { length message.now ≤ longest }
    requires known_value { filled known.now ≡ true }
    requires text_len { length text.old ≡ header_room }
    requires table_len { length table.old ≡ recipient_table }
    requires of_len { length of.old ≡ recipients_room }
    requires own_len { length own.old ≡ own_table }
    requires counts_len { length counts.old ≡ most_recipients }
    ensures { HoldsBy message.now (json_order message.now (names known.now) 0)
        (json_held message.now) (as_holding result) text.new table.new of.new own.new
        counts.new }
{
    let mut outer = [0u32; layout::HEADER_TABLE];
    let count = shape::top(message, &mut outer)?;
    let members = Entries {
        table: &outer,
        count,
    };
    let number = shape::recipients(message, members, of)?;
    let top = shape::held::held(members);
    if misspelled(message, top.components, of, number) {
        return Err(Refusal::Misspelled);
    }
    shaped(message, known, top, of, number, text, table, own, counts)
}

// What is handed out for a recipient, of what the message holds; its parameters stand at the start of the table.
fn hand_out(
    message: &[u8],
    has: Holding,
    text: &[u8],
    of: &[usize],
    own: &[u32],
    counts: &[usize],
    i: usize,
    table: &mut [u32],
) -> Reading
    requires text_len { length text.now ≡ header_room }
    requires table_len { length table.old ≡ recipient_table }
    requires of_len { length of.now ≡ recipients_room }
    requires own_len { length own.now ≡ own_table }
    requires counts_len { length counts.now ≡ most_recipients }
    requires i_lt_recipients { i < has.recipients }
    requires holds { Holds message.now (json_held message.now) (holding_of has) text.now table.old of.now own.now counts.now }
    ensures result_value { numbers (reading_of result) ≡ accepted message.now (outcome_for (json_held message.now) i) }
    ensures gathers { Gathers message.now (json_held message.now) i has.common result.parameters table.new }
{
    let parameters = held::gather(own, counts, i, table, has.common);
    let texts = Texts {
        header: &text[..has.header],
        shared: message,
        own: message,
    };
    let entries = Entries {
        table: &table[..],
        count: parameters,
    };
    Reading {
        form: has.form,
        recipients: has.recipients,
        mode: jose::rules::mode(texts, entries),
        components: headers::with_key(has.components, held::key(of, i)),
        header: has.header,
        parameters,
    }
}

// A JSON message judged for a recipient.
pub(crate) fn judge(
    message: &[u8],
    known: &[u8],
    recipient: u32,
    text: &mut [u8],
    table: &mut [u32],
) -> Result<Reading, Refusal>
    requires message_len_bound { length message.now ≤ longest }
    requires known_value { filled known.now ≡ true }
    requires text_len { length text.old ≡ header_room }
    requires table_len { length table.old ≡ recipient_table }
    ensures { Judges message.now (json_order message.now (names known.now) recipient) (json_outcome message.now recipient) (as_result result) text.old text.new table.old table.new }
{
    let mut of = [0usize; shape::RECIPIENTS_ROOM];
    let mut own = [0u32; held::OWN_TABLE];
    let mut counts = [0usize; MOST_RECIPIENTS];
    let has = hold(message, known, text, table, &mut of, &mut own, &mut counts)?;
    let i = recipient as usize;
    if has.recipients <= i {
        return Err(Refusal::NoSuchRecipient);
    }
    Ok(hand_out(message, has, text, &of, &own, &counts, i, table))
}
