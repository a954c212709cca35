// Entries copied, and the list that is handed out.
ghost use Rattle.std.specs.Prelude.{◌≡◌, ◌+◌, ◌*◌, ◌≤◌, length};
ghost use Rattle.prelude.specs.Buffer.{written};
ghost use Rattle.rows.specs.Tables.{list_row, listed, list_width};
ghost use Rattle.rows.specs.Inner.Views.{the_entry, the_entries};

use crate::layout;
use crate::table::{Entries, Entry};

// Numbers copied into a table from a position on: a loop, as `prelude::copy_octets` is one.
pub fn copy(from: &[u32], into: &mut [u32], at: usize)
    requires { at + length from.now ≤ length into.old }
    ensures { into.new ≡ written at from.now into.old }
{
    for (k, &x) in from.iter().enumerate() {
        into[at + k] = x;
    }
}

impl<'a> Entry<'a> {
    // Its six numbers of the list, which are the first of its eight, as the list's i-th.
    fn lay(self, list: &mut [u32], i: usize)
        requires { i * list_width + list_width ≤ length list.old }
        ensures { list.new ≡ written (i * list_width) (list_row (the_entry self.entry)) list.old }
    {
        copy(
            &self.numbers[..layout::LIST_WIDTH],
            list,
            i * layout::LIST_WIDTH,
        );
    }
}

impl<'a> Entries<'a> {
    // All of them laid out as document 01's list: six numbers each, at the start of the list.
    pub fn lay(self, list: &mut [u32])
        requires { self.count * list_width ≤ length list.old }
        ensures { list.new ≡ written 0 (listed (the_entries self.entry)) list.old }
    {
        for i in 0..self.count {
            self.at(i).lay(list, i);
        }
    }
}
