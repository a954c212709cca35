// Entries of a table, one of them, and the texts in which they stand.
ghost use Rattle.std.specs.Prelude.{ℕ, ◌*◌, ◌≤◌, ◌<◌, length, drop};
ghost use Rattle.rows.specs.Tables.{width};
ghost use Rattle.rows.specs.Inner.Prints.{HasPrint};

// The first entries of a table.
#[derive(Clone, Copy)]
pub struct Entries<'a> {
    pub table: &'a [u32],
    pub count: usize,
    pub ghost fits: { count * width ≤ length table.now },
}

// One entry: the numbers of a table from its first one on.
#[derive(Clone, Copy)]
pub struct Entry<'a> {
    pub numbers: &'a [u32],
    pub ghost whole: { width ≤ length numbers.now },
}

// The texts in which a recipient's three headers stand: the protected, the shared and its own.
#[derive(Clone, Copy)]
pub struct Texts<'a> {
    pub header: &'a [u8],
    pub shared: &'a [u8],
    pub own: &'a [u8],
}

// A recipient's headers: their parameters, and the texts in which these stand. The entries have the fingerprints of their names.
#[derive(Clone, Copy)]
pub struct Headers<'a, 'b> {
    pub texts: Texts<'a>,
    pub entries: Entries<'b>,
    pub ghost printed: { (i : ℕ) → i < entries.count →
        HasPrint (record { protected = texts.header.now; shared = texts.shared.now; own = texts.own.now })
        (drop (i * width) entries.table.now) },
}
