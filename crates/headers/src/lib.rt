// The headers of a message: components checked, the protected header decoded, objects collected as entries.
#![tactic(auto)]

ghost use Rattle.std.specs.Prelude.{◌≡◌, true, false, ◌+◌, ◌*◌, ◌≤◌, length};
ghost use Rattle.names.specs.Names.{names, filled};
ghost use Rattle.grammar.specs.Grammar.{curly};
ghost use Rattle.grammar.specs.Reader.{members_at};
ghost use Rattle.json_read.specs.Inner.Known.{Given, KnownIn};
ghost use Rattle.rows.specs.Rows.{entries_in};
ghost use Rattle.rows.specs.Tables.{header_table, width};
ghost use Rattle.rows.specs.Inner.Prints.{collected_table};
ghost use Rattle.prelude.specs.Limits.{header_room, levels, longest};
ghost use Rattle.prelude.specs.Refusals.{first, stage_of, as_stage};
ghost use Rattle.headers.specs.Components.{misspelled, with_key, sizes_of};
ghost use Rattle.headers.specs.Headers.{header_text, text_order, protected_entries, object_order};
ghost use Rattle.headers.specs.Answers.{place_of, components_of, header_buffer};

use jose::Sizes;
use json_read::Position;
use prelude::Place;
use prelude::limits::LEVELS;
use prelude::refusal::Refusal;
use rows::table::{Entries, Headers, Texts};

// The encoded components by their places in the message; 0, 0 where one is absent.
#[derive(Clone, Copy)]
pub struct Components {
    pub protected: Place,
    pub key: Place,
    pub iv: Place,
    pub aad: Place,
    pub ciphertext: Place,
    pub tag: Place,
}

// Components with another key.
pub fn with_key(q: Components, key: Place) -> Components
    ensures { components_of result ≡ with_key (components_of q) (place_of key) }
{
    let protected = q.protected;
    let iv = q.iv;
    let aad = q.aad;
    let ciphertext = q.ciphertext;
    let tag = q.tag;
    Components {
        protected,
        key,
        iv,
        aad,
        ciphertext,
        tag,
    }
}

// How many octets the components decode to.
pub fn sizes(q: Components) -> Sizes
    ensures { result ≡ sizes_of (components_of q) }
{
    Sizes {
        key: base64url::decoded_length(q.key.len),
        iv: base64url::decoded_length(q.iv.len),
        ciphertext: base64url::decoded_length(q.ciphertext.len),
        tag: base64url::decoded_length(q.tag.len),
    }
}

// Whether a component is not base64url. An empty one is; many are, and absent ones too.
pub fn misspelled(message: &[u8], place: Place) -> bool
    ensures { result ≡ misspelled message.now (place_of place) }
{
    if place.len == 0 {
        return false;
    }
    base64url::check(parts::part(message, place.start, place.len)).is_err()
}

// 8 and 9 on the object at a position of a text, which has been judged or not: its members as entries of the table from the
// entry `from` on, and how many they are.
pub fn object(
    s: &[u8],
    at: usize,
    origin: u32,
    list: &[u8],
    table: &mut [u32],
    from: usize,
    judged: bool,
) -> Result<usize, Refusal>
    requires s_len_bound { length s.now ≤ longest }
    requires list_value { filled list.now ≡ true }
    requires header_table_in_bounds { from * width + header_table ≤ length table.old }
    requires given { Given judged (KnownIn curly levels s.now at) }
    ensures value { as_stage result ≡ stage_of (first (object_order s.now (entries_in (names list.now) s.now origin (members_at levels s.now at)))) (length (members_at levels s.now at)) }
    ensures table_after { table.new ≡ collected_table from s.now (entries_in (names list.now) s.now origin (members_at levels s.now at)) table.old }
{
    let Some(count) = rows::collect::collect(s, at, origin, list, table, from, judged) else {
        return Err(Refusal::ManyMembers);
    };
    let first = from * rows::layout::WIDTH;
    let texts = Texts {
        header: s,
        shared: s,
        own: s,
    };
    let entries = Entries {
        table: &table[first..],
        count,
    };
    let members = Headers { texts, entries };
    if members.clashes(false) {
        return Err(Refusal::NameTwice);
    }
    Ok(count)
}

// 8 and 9 on the decoded protected header: its parameters as entries at the start of the table, and how many they are.
pub fn protected_entries(header: &[u8], table: &mut [u32]) -> Result<usize, Refusal>
    requires header_len_bound { length header.now ≤ longest }
    requires header_table_in_bounds { header_table ≤ length table.old }
    ensures value { as_stage result ≡ stage_of (first (object_order header.now (protected_entries header.now))) (length (protected_entries header.now)) }
    ensures table_after { table.new ≡ collected_table 0 header.now (protected_entries header.now) table.old }
{
    let list = jose::lists::REGISTERED;
    let start = Position { at: 0 }.skip_space(header);
    object(header, start.at, 0, &list, table, 0, false)
}

// 6 and 7 on the protected header, whose encoded text at a place of the message has no fault: it is decoded into the
// buffer, and how long it is.
pub fn header(message: &[u8], place: Place, buffer: &mut [u8]) -> Result<usize, Refusal>
    requires place_value { misspelled message.now (place_of place) ≡ false }
    requires buffer_len { length buffer.old ≡ header_room }
    ensures value { as_stage result ≡ stage_of (first (text_order (header_text message.now (place_of place)))) (length (header_text message.now (place_of place))) }
    ensures buffer_after { buffer.new ≡ header_buffer (header_text message.now (place_of place)) buffer.old }
{
    let decoded = base64url::decode(parts::part(message, place.start, place.len), buffer);
    let Ok(n) = decoded else {
        return Err(Refusal::LongHeader);
    };
    let Some(_) = json_read::judge(&buffer[..n], LEVELS) else {
        return Err(Refusal::Unread);
    };
    Ok(n)
}
