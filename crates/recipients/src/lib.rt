// The recipients that the JSON writer is given, contents first: one octet n from 1 to 8, per recipient the lengths of its
// header and its key, then their bodies. What each function answers stands in specs/Parsed.
#![tactic(auto)]

ghost use Rattle.std.specs.Prelude.{◌≡◌, true, ◌<◌};
ghost use Rattle.recipients.specs.Parsed.{said_count, body_start, sound_table};
ghost use Rattle.recipients.specs.Inner.Answers.{count_answer, body_at};

use prelude::Place;
use prelude::limits::MOST_RECIPIENTS;

pub mod bodies;
pub mod four;

// Where a recipient's header and key stand in the table; either may have length 0.
#[derive(Clone, Copy)]
pub struct Body {
    pub header: Place,
    pub key: Place,
}

// How many recipients a table has, if it is sound. The sum of at most 16 lengths of four octets does not wrap.
pub fn count(table: &[u8]) -> Option<usize>
    ensures { result ≡ count_answer table.now }
{
    let n = usize::from(*table.first()?);
    if n < 1 || MOST_RECIPIENTS < n {
        return None;
    }
    let mut end = 1 + 8 * n;
    if table.len() < end {
        return None;
    }
    for i in 0..n {
        let at = 1 + 8 * i;
        end += four::four_at(table, at) + four::four_at(table, at + 4);
    }
    if end != table.len() {
        return None;
    }
    Some(n)
}

// Where the header and the key of the i-th recipient stand, counted from 0 on; `start` is where its body begins, and the
// next one's begins where its key ends. So a loop over the recipients reads each length once.
pub fn recipient(table: &[u8], i: usize, start: usize) -> Body
    requires table_value { sound_table table.now ≡ true }
    requires i_bound { i < said_count table.now }
    requires start_value { start ≡ body_start table.now i }
    ensures { result ≡ body_at table.now i }
{
    let at = 1 + 8 * i;
    let header = four::four_at(table, at);
    let key = four::four_at(table, at + 4);
    Body {
        header: Place { start, len: header },
        key: Place {
            start: start + header,
            len: key,
        },
    }
}
