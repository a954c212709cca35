// Names that say the same: within one header, or across two.
ghost use Rattle.std.specs.Prelude.{◌≡◌, ◌+◌, ◌*◌, ◌<◌, drop};
ghost use Rattle.prelude.specs.Any.{any};
ghost use Rattle.rows.specs.Rows.{apart, same, repeated};
ghost use Rattle.rows.specs.Tables.{first_of, width};
ghost use Rattle.rows.specs.Inner.Prints.{HasPrint};
ghost use Rattle.rows.specs.Inner.Views.{the_entry, the_entries, the_texts};

use crate::table::{Entry, Headers, Texts};

// Whether two origins differ, or are the same.
fn apart(across: bool, o: u32, p: u32) -> bool
    ensures { result ≡ apart across o p }
{
    if across { o != p } else { o == p }
}

impl<'a> Texts<'a> {
    // Whether two entries, both of one origin, or, across, of two, say the same: their fingerprints are compared first.
    fn clash(self, e: Entry, f: Entry, across: bool) -> bool
        requires has_print { HasPrint (the_texts self) e.numbers.now }
        requires has_print_2 { HasPrint (the_texts self) f.numbers.now }
        ensures { result ≡ same across (the_texts self.entry) (the_entry e.entry) (the_entry f.entry) }
    {
        if e.print() != f.print() {
            return false;
        }
        if apart(across, e.origin(), f.origin()) {
            return self.says(e, self.name(f));
        }
        false
    }
}

impl<'a, 'b> Headers<'a, 'b> {
    // Whether a parameter says the same as one behind it.
    fn clashes_with(self, across: bool, i: usize) -> bool
        requires { i < self.entries.count }
        ensures { result ≡ any (same across (the_texts self.entry.texts) (first_of (drop (i * width) self.entry.entries.table.now))) (drop (i + 1) (the_entries self.entry.entries)) }
    {
        let Headers { texts, entries } = self;
        let e = entries.at(i);
        for j in i + 1..entries.count {
            if texts.clash(e, entries.at(j), across) {
                return true;
            }
        }
        false
    }

    // Whether two parameters say the same, both of one header, or, across, of two. Names with different fingerprints are not
    // compared, so that long names are read once.
    pub fn clashes(self, across: bool) -> bool
        ensures { result ≡ repeated across (the_texts self.entry.texts) (the_entries self.entry.entries) }
    {
        for i in 0..self.entries.count {
            if self.clashes_with(across, i) {
                return true;
            }
        }
        false
    }
}
