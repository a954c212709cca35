// The recipients of a table, one after the other: where each one's header and key stand. A loop over them reads each length
// once, since the next body begins where this one's key ends.
ghost use Rattle.std.specs.Prelude.{◌≡◌, true, ◌≤◌};
ghost use Rattle.std.specs.Iterator.{YieldsFirst, item_count};
ghost use Rattle.recipients.specs.Parsed.{said_count, body_start, sound_table};
ghost use Rattle.recipients.specs.Inner.Answers.{bodies_left};

use crate::Body;

// Those from the i-th on, whose body begins at `start`.
#[derive(Drop)]
pub struct Bodies<'a> {
    table: &'a [u8],
    i: usize,
    start: usize,
    ghost sound: { sound_table table.now ≡ true },
    ghost within: { i ≤ said_count table.now },
    ghost here: { start ≡ body_start table.now i },
}

impl<'a> Bodies<'a> {
    pub fn of(table: &'a [u8]) -> Bodies<'a>
        requires { sound_table table.now ≡ true }
        ensures { bodies_left result.table.now result.i ≡ bodies_left table.now 0 }
    {
        Bodies {
            table,
            i: 0,
            start: 1 + 8 * table[0] as usize,
        }
    }
}

impl<'a> Iterator for Bodies<'a> {
    type Item = Body;

    ghost next_gives = { YieldsFirst (λ s. bodies_left s.table.now s.i) };

    ghost remaining = { item_count (λ s. bodies_left s.table.now s.i) };

    fn next(&mut self) -> Option<Body> {
        if self.i == self.table[0] as usize {
            return None;
        }
        let body = crate::recipient(self.table, self.i, self.start);
        *self = Bodies {
            table: self.table,
            i: self.i + 1,
            start: body.key.start + body.key.len,
        };
        Some(body)
    }
}
