// What a message that has been judged holds, in the tables that `hold` fills: three numbers a recipient in `of`, and the parameters
// of their own headers in `own`, 32 entries apart, with how many each has in `counts`.
ghost use Rattle.std.specs.Prelude.{◌≡◌, ◌+◌, ◌*◌, ◌≤◌, ◌<◌, length, take, drop, get_or};
ghost use Rattle.prelude.specs.Buffer.{written};
ghost use Rattle.prelude.specs.Limits.{most_members, most_recipients};
ghost use Rattle.rows.specs.Tables.{header_table, width};
ghost use Rattle.headers.specs.Answers.{place_of};
ghost use Rattle.shape.specs.Inner.Answers.{recipient_width};
ghost use Rattle.jwe.specs.Inner.Stages.{recipient_at, own_table};

use prelude::Place;
use rows::layout;

// The room of a table for the own headers of all recipients.
pub const OWN_TABLE: usize = 2048;

// The place of a recipient's key.
pub fn key(of: &[usize], i: usize) -> Place
    requires { i * recipient_width + recipient_width ≤ length of.now }
    ensures { place_of result ≡ (recipient_at (drop (i * recipient_width) of.now)).key }
{
    let at = i * shape::RECIPIENT_WIDTH;
    Place {
        start: of[at + 1],
        len: of[at + 2],
    }
}

// The parameters of a recipient: its own are copied behind those that are all recipients'. How many they are.
pub fn gather(own: &[u32], counts: &[usize], i: usize, table: &mut [u32], front: usize) -> usize
    requires i_lt_most_recipients { i < most_recipients }
    requires own_len { length own.now ≡ own_table }
    requires counts_len { length counts.now ≡ most_recipients }
    requires i_bound { get_or counts.now i 0 ≤ most_members }
    requires header_table_in_bounds { front * width + header_table ≤ length table.old }
    ensures value { result ≡ front + get_or counts.now i 0 }
    ensures table_after { table.new ≡ written (front * width) (take (get_or counts.now i 0 * width) (drop (i * header_table) own.now)) table.old }
{
    let count = counts[i];
    let start = i * layout::HEADER_TABLE;
    let end = start + count * layout::WIDTH;
    rows::copy::copy(&own[start..end], table, front * layout::WIDTH);
    front + count
}
