// The content algorithm of a recipient, for request 2/12: it is the same for all.
ghost use Rattle.std.specs.Prelude.{◌≡◌};
ghost use Rattle.rows.specs.Inner.Views.{the_entries};
ghost use Rattle.jose.specs.ContentAlgorithm.{differ};
ghost use Rattle.jose.specs.Inner.Content.{named_in, shown_in};

use crate::lists::ENC;
use prelude::Place;
use rows::layout::STRING;
use rows::table::Entries;

// Where the only `enc` among some entries stands without its quotation marks, where it is a string.
pub fn sole(entries: Entries) -> Option<Place>
    ensures { result ≡ named_in (the_entries entries.entry) }
{
    let at = entries.next(0, ENC)?;
    if entries.next(at + 1, ENC).is_some() {
        return None;
    }
    let e = entries.at(at);
    if e.kind() != STRING {
        return None;
    }
    let value = e.value_place();
    Some(Place {
        start: value.start + 1,
        len: prelude::minus(value.len, 2),
    })
}

// Whether there are two, each in its own text, and they say different strings.
pub fn differ(a: &[u8], x: Option<Place>, b: &[u8], y: Option<Place>) -> bool
    ensures { result ≡ differ (shown_in a.now x) (shown_in b.now y) }
{
    let (Some(p), Some(q)) = (x, y) else {
        return false;
    };
    !spelling::alike(
        parts::part(a, p.start, p.len),
        parts::part(b, q.start, q.len),
    )
}
