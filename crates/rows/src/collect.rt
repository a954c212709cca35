// An object's members as entries.
ghost use Rattle.std.specs.Prelude.{◌≡◌, true, ◌+◌, ◌*◌, ◌≤◌, length, take};
ghost use Rattle.prelude.specs.Buffer.{AllBelow, written};
ghost use Rattle.prelude.specs.Limits.{levels, longest, number_limit};
ghost use Rattle.names.specs.Names.{names, filled};
ghost use Rattle.grammar.specs.Grammar.{curly};
ghost use Rattle.grammar.specs.Reader.{members_at};
ghost use Rattle.json_read.specs.Members.{collected_of, member_width};
ghost use Rattle.json_read.specs.Inner.Known.{Given, KnownIn};
ghost use Rattle.rows.specs.Rows.{entry_of, entries_in};
ghost use Rattle.rows.specs.Tables.{header_table, width};
ghost use Rattle.rows.specs.Inner.Members.{first_member, members_of};
ghost use Rattle.rows.specs.Inner.Prints.{table_row, flat, collected_table};

use crate::layout;
use json_read::Position;
use prelude::limits::LEVELS;

// The entry of a member, of which `row` has the five numbers, written from a position of the table on.
fn put(text: &[u8], origin: u32, list: &[u8], row: &[usize], table: &mut [u32], at: usize)
    requires list_value { filled list.now ≡ true }
    requires row_len { length row.now ≡ member_width }
    requires all_below { AllBelow number_limit row.now }
    requires width_in_bounds { at + width ≤ length table.old }
    ensures { table.new ≡ written at (table_row text.now (entry_of (names list.now) text.now origin (first_member row.now))) table.old }
{
    let start = row[0];
    let len = row[1];
    let name = parts::part(text, start, len);
    let number = names::find(list, name);
    let print = spelling::fingerprint(name);
    table[at] = origin;
    table[at + layout::NAME_START] = start as u32;
    table[at + layout::NAME_SIZE] = len as u32;
    table[at + layout::VALUE_START] = row[2] as u32;
    table[at + layout::VALUE_SIZE] = row[3] as u32;
    table[at + layout::KIND] = row[4] as u32;
    table[at + layout::NUMBER] = number;
    table[at + layout::PRINT] = print;
}

// The entries of the first members of some rows, written from the entry `from` of the table on.
fn fill(
    text: &[u8],
    origin: u32,
    list: &[u8],
    rows: &[usize],
    count: usize,
    table: &mut [u32],
    from: usize,
)
    requires list_value { filled list.now ≡ true }
    requires member_width_in_bounds { count * member_width ≤ length rows.now }
    requires all_below { AllBelow number_limit (take (count * member_width) rows.now) }
    requires width_in_bounds { from * width + count * width ≤ length table.old }
    ensures { table.new ≡ written (from * width) (flat text.now (entries_in (names list.now) text.now origin (members_of count rows.now))) table.old }
{
    for i in 0..count {
        let start = i * json_read::member::WIDTH;
        let end = start + json_read::member::WIDTH;
        put(
            text,
            origin,
            list,
            &rows[start..end],
            table,
            (from + i) * layout::WIDTH,
        );
    }
}

// The members of the object at a position of a text of at most 16 MiB, as entries of the table from the entry `from`
// on; the table is unchanged where they are more than 32. `list` is the names that are counted; `judged` says that the text
// has been judged, so that objects and arrays need only be passed over.
pub fn collect(
    text: &[u8],
    at: usize,
    origin: u32,
    list: &[u8],
    table: &mut [u32],
    from: usize,
    judged: bool,
) -> Option<usize>
    requires text_len_bound { length text.now ≤ longest }
    requires list_value { filled list.now ≡ true }
    requires header_table_in_bounds { from * width + header_table ≤ length table.old }
    requires given { Given judged (KnownIn curly levels text.now at) }
    ensures value { result ≡ collected_of (members_at levels text.now at) }
    ensures table_after { table.new ≡ collected_table from text.now (entries_in (names list.now) text.now origin (members_at levels text.now at)) table.old }
{
    let mut rows = [0usize; json_read::member::ROOM];
    let count = Position { at }.collect(text, LEVELS, judged, &mut rows)?;
    fill(text, origin, list, &rows, count, table, from);
    Some(count)
}
