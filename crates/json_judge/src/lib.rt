// The pieces that the JSON writer is given, judged before anything is written: what the reader will say of the message that
// they make. What is asked, and in which order, stands in json_message's specs/Inner.
#![tactic(auto)]

ghost use Rattle.std.specs.Prelude.{◌≡◌, true, cond, ◌+◌, ◌*◌, ◌≤◌, length, eqb};
ghost use Rattle.prelude.specs.Any.{any};
ghost use Rattle.prelude.specs.Limits.{levels, longest};
ghost use Rattle.prelude.specs.Refusals.{first, stage_of, as_stage};
ghost use Rattle.names.specs.Names.{names, filled};
ghost use Rattle.rows.specs.Tables.{header_table, width};
ghost use Rattle.rows.specs.Inner.Prints.{collected_table};
ghost use Rattle.jose.specs.ContentAlgorithm.{differ};
ghost use Rattle.jose.specs.Inner.Content.{named_in, shown_in};
ghost use Rattle.headers.specs.Headers.{object_order};
ghost use Rattle.recipients.specs.Parsed.{recipients_in, said_count, sound_table};
ghost use Rattle.json_message.specs.Handed.{text_entries};
ghost use Rattle.json_message.specs.WriteOrder.{unread_within};
ghost use Rattle.json_message.specs.Inner.Judged.{own_levels};
ghost use Rattle.json_message.specs.Inner.PiecesOrder.{hollow_text};
ghost use Rattle.jwe.specs.Answers.{refused_by};
ghost use Rattle.json_judge.specs.Inner.Asked.{Readable, OwnReadable, OwnShort, Front, unread_texts, hollow_texts};
ghost use Rattle.json_judge.specs.Inner.Faults.{fault_number, as_judged};
ghost use Rattle.json_judge.specs.Inner.Asked.{own_tests, rules_tests, recipients_tests, parameters_tests};
ghost use Rattle.json_judge.specs.Inner.Asked.{over_tests, within_tests};

use jose::Sizes;
use jose::lists::ENC;
use json_read::Position;
use prelude::Place;
use prelude::limits::{HEADER_ROOM, LEVELS};
use prelude::refusal::Refusal;
use recipients::bodies::Bodies;
use rows::table::{Entries, Headers, Texts};

// 7 on a text within so many levels; an absent one is not judged.
fn unread_within(levels: u32, text: &[u8]) -> bool
    ensures { result ≡ unread_within levels text.now }
{
    if text.len() == 0 {
        return false;
    }
    json_read::judge(text, levels).is_none()
}

// 7 on the own headers.
fn own_unread(levels: u32, recipients: &[u8]) -> bool
    requires { sound_table recipients.now ≡ true }
    ensures { result ≡ any (λ q. unread_within levels q.header) (recipients_in recipients.now) }
{
    for body in Bodies::of(recipients) {
        if unread_within(
            levels,
            parts::part(recipients, body.header.start, body.header.len),
        ) {
            return true;
        }
    }
    false
}

// Whether a text that reads has no member; an absent one has no such fault.
fn hollow_text(text: &[u8]) -> bool
    requires { Readable text.now }
    ensures { result ≡ hollow_text text.now }
{
    if text.len() == 0 {
        return false;
    }
    let first = Position { at: 0 }.skip_space(text).inside(text).at;
    if first < text.len() {
        return text[first] == 125;
    }
    false
}

// 10 on the own headers, which read.
fn own_hollow(recipients: &[u8]) -> bool
    requires recipients_value { sound_table recipients.now ≡ true }
    requires own_readable { OwnReadable (recipients_in recipients.now) }
    ensures { result ≡ any (λ q. hollow_text q.header) (recipients_in recipients.now) }
{
    for body in Bodies::of(recipients) {
        if hollow_text(parts::part(recipients, body.header.start, body.header.len)) {
            return true;
        }
    }
    false
}

// 8 and 9 on a text that reads: its parameters as entries of the table from the entry `from` on, and how many they are.
fn text_entries(text: &[u8], origin: u32, table: &mut [u32], from: usize) -> Result<usize, Refusal>
    requires readable { Readable text.now }
    requires header_table_in_bounds { from * width + header_table ≤ length table.old }
    ensures value { as_stage result ≡ stage_of (first (object_order text.now (text_entries origin text.now)))
        (length (text_entries origin text.now)) }
    ensures table_after { table.new ≡ collected_table from text.now (text_entries origin text.now)
        table.old }
{
    if text.len() == 0 {
        return Ok(0);
    }
    let list = jose::lists::REGISTERED;
    let at = Position { at: 0 }.skip_space(text).at;
    headers::object(text, at, origin, &list, table, from, true)
}

// What a recipient whose own header passes 8 and 9 is refused for, 12 to 18, and where the content algorithm of that header
// stands.
#[derive(Clone, Copy)]
struct Faults {
    rules: Option<Refusal>,
    content: Option<Place>,
}

// A recipient with this own header and these sizes judged. The first entries of the table are all recipients', and
// stay; what stands behind them afterwards is free: the table is a caller's own.
fn judge_recipient<'a>(
    header: &'a [u8],
    shared: &'a [u8],
    own: &'a [u8],
    known: &[u8],
    sizes: Sizes,
    table: &mut [u32],
    front: usize,
) -> Result<Faults, Refusal>
    requires known_value { filled known.now ≡ true }
    requires readable { Readable own.now }
    requires header_table_in_bounds { front * width + header_table ≤ length table.old }
    requires front { Front header.now shared.now front table.old }
    ensures object_value { (as_judged result).object ≡ first (own_tests own.now) }
    ensures rules_value { (as_judged result).object ≡ 0 → (as_judged result).rules ≡ first
        (rules_tests (names known.now) header.now shared.now own.now sizes) }
    ensures content_value { (as_judged result).object ≡ 0 → (as_judged result).content ≡ named_in (text_entries 2 own.now) }
    ensures table_len_unchanged { (length table.new ≡ length table.old)
        × Front header.now shared.now front table.new }
{
    let count = text_entries(own, 2, table, front)?;
    let texts = Texts {
        header,
        shared,
        own,
    };
    let entries = Entries {
        table: &table[..],
        count: front + count,
    };
    let all = Headers { texts, entries };
    let rules = jose::judge::judge(all, known, sizes).err();
    let start = front * rows::layout::WIDTH;
    let its = Entries {
        table: &table[start..],
        count,
    };
    Ok(Faults {
        rules,
        content: jose::content::sole(its),
    })
}

// Where the first recipient's content algorithm stands, behind recipient i.
fn first_content(i: usize, so_far: Option<Place>, its: Option<Place>) -> Option<Place>
    ensures { result ≡ cond (eqb i 0) its so_far }
{
    if i == 0 { its } else { so_far }
}

// 21 where a recipient's content algorithm differs from the first one's, each in its own header.
fn content_fault(
    first: &[u8],
    named: Option<Place>,
    own: &[u8],
    its: Option<Place>,
) -> Option<Refusal>
    ensures { fault_number result ≡ cond (differ (shown_in first.now named) (shown_in own.now its)) 21 0 }
{
    if jose::content::differ(first, named, own, its) {
        return Some(Refusal::ContentAlgorithms);
    }
    None
}

// The refusal of all recipients: the first one by the rules, and then 21 on their own headers, unless a header that all share has
// `enc`.
fn fault_of_all(rules: Option<Refusal>, shared: bool, content: Option<Refusal>) -> Option<Refusal>
    ensures { fault_number result ≡ cond (eqb (fault_number rules) 0) (cond shared 0 (fault_number content)) (fault_number rules) }
{
    rules.or(if shared { None } else { content })
}

// 8 and 9 on each recipient's own header, 12 to 18 on each recipient, and 21 on all. Each own header is collected once: while the
// later ones are asked for 8 and 9, the first refusal of an earlier recipient waits, and so does 21.
fn judge_recipients<'a>(
    header: &'a [u8],
    shared: &'a [u8],
    known: &[u8],
    recipients: &'a [u8],
    n: usize,
    sizes: Sizes,
    table: &mut [u32],
    front: usize,
) -> Result<usize, Refusal>
    requires known_value { filled known.now ≡ true }
    requires recipients_value { sound_table recipients.now ≡ true }
    requires n_value { n ≡ said_count recipients.now }
    requires own_readable { OwnReadable (recipients_in recipients.now) }
    requires header_table_in_bounds { front * width + header_table ≤ length table.old }
    requires front { Front header.now shared.now front table.old }
    ensures value { as_stage result ≡ stage_of (first (recipients_tests (names known.now) header.now shared.now
        sizes (recipients_in recipients.now))) n }
    ensures table_len_unchanged { length table.new ≡ length table.old }
{
    let common = Entries {
        table: &table[..],
        count: front,
    };
    let has_enc = common.present(ENC);
    let mut broken = None;
    let mut content = None;
    let mut named = None;
    let mut start = 1 + 8 * n;
    let head = recipients::recipient(recipients, 0, start);
    let first = parts::part(recipients, head.header.start, head.header.len);
    // By number, and not by `Bodies`: `first_content` asks which one it is.
    for i in 0..n {
        let body = recipients::recipient(recipients, i, start);
        let own = parts::part(recipients, body.header.start, body.header.len);
        let its = Sizes {
            key: body.key.len,
            iv: sizes.iv,
            ciphertext: sizes.ciphertext,
            tag: sizes.tag,
        };
        let faults = judge_recipient(header, shared, own, known, its, table, front)?;
        broken = broken.or(faults.rules);
        named = first_content(i, named, faults.content);
        content = content.or(content_fault(first, named, own, faults.content));
        start = body.key.start + body.key.len;
    }
    match fault_of_all(broken, has_enc, content) {
        Some(refusal) => Err(refusal),
        None => Ok(n),
    }
}

// 8 and 9 on all texts, 12 to 18 on each recipient, and 21 on all.
fn judge_parameters<'a>(
    header: &'a [u8],
    shared: &'a [u8],
    known: &[u8],
    recipients: &'a [u8],
    n: usize,
    sizes: Sizes,
) -> Result<usize, Refusal>
    requires known_value { filled known.now ≡ true }
    requires recipients_value { sound_table recipients.now ≡ true }
    requires n_value { n ≡ said_count recipients.now }
    requires header_len_bound { length header.now ≤ longest }
    requires readable { Readable shared.now }
    requires own_readable { OwnReadable (recipients_in recipients.now) }
    ensures { as_stage result ≡ stage_of (first (parameters_tests (names known.now) header.now shared.now
        sizes (recipients_in recipients.now))) n }
{
    let mut table = [0u32; rows::layout::RECIPIENT_TABLE];
    let p = headers::protected_entries(header, &mut table)?;
    let s = text_entries(shared, 1, &mut table, p)?;
    judge_recipients(
        header,
        shared,
        known,
        recipients,
        n,
        sizes,
        &mut table,
        p + s,
    )
}

// 7 on all texts: the shared one within `outer` levels, the own ones within `inner`.
fn unread_texts(outer: u32, inner: u32, header: &[u8], shared: &[u8], recipients: &[u8]) -> bool
    requires { sound_table recipients.now ≡ true }
    ensures { result ≡ unread_texts outer inner header.now shared.now
        (recipients_in recipients.now) }
{
    if unread_within(LEVELS, header) {
        return true;
    }
    if unread_within(outer, shared) {
        return true;
    }
    own_unread(inner, recipients)
}

// 10 on all texts, which read.
fn hollow_texts(header: &[u8], shared: &[u8], recipients: &[u8]) -> bool
    requires recipients_value { sound_table recipients.now ≡ true }
    requires readable { Readable header.now }
    requires readable_2 { Readable shared.now }
    requires own_readable { OwnReadable (recipients_in recipients.now) }
    ensures { result ≡ hollow_texts header.now shared.now (recipients_in recipients.now) }
{
    if hollow_text(header) {
        return true;
    }
    if hollow_text(shared) {
        return true;
    }
    own_hollow(recipients)
}

// The levels that are left to an own header where it will stand.
fn own_levels(general: bool) -> u32
    ensures { result ≡ own_levels general }
{
    if general { LEVELS - 3 } else { LEVELS - 1 }
}

// The pieces of a message that would be too long.
pub fn judge_over(
    header: &[u8],
    shared: &[u8],
    recipients: &[u8],
    n: usize,
) -> Result<usize, Refusal>
    requires recipients_value { sound_table recipients.now ≡ true }
    requires n_value { n ≡ said_count recipients.now }
    ensures { as_stage result ≡ stage_of (first (over_tests header.now shared.now
        (recipients_in recipients.now))) n }
{
    if HEADER_ROOM < header.len() {
        return Err(Refusal::LongHeader);
    }
    if unread_texts(LEVELS, LEVELS, header, shared, recipients) {
        return Err(Refusal::Unread);
    }
    Err(Refusal::LongMessage)
}

// The pieces of one that would not.
pub fn judge_within(
    general: bool,
    header: &[u8],
    shared: &[u8],
    known: &[u8],
    recipients: &[u8],
    n: usize,
    sizes: Sizes,
) -> Result<usize, Refusal>
    requires known_value { filled known.now ≡ true }
    requires recipients_value { sound_table recipients.now ≡ true }
    requires n_value { n ≡ said_count recipients.now }
    requires shared_len_bound { length shared.now ≤ longest }
    requires own_short { OwnShort (recipients_in recipients.now) }
    ensures { as_stage result ≡ stage_of (first (within_tests general (names known.now) header.now shared.now
        sizes (recipients_in recipients.now))) n }
{
    if HEADER_ROOM < header.len() {
        return Err(Refusal::LongHeader);
    }
    if unread_texts(LEVELS - 1, own_levels(general), header, shared, recipients) {
        return Err(Refusal::Unread);
    }
    if hollow_texts(header, shared, recipients) {
        return Err(Refusal::Shape);
    }
    judge_parameters(header, shared, known, recipients, n, sizes)
}
