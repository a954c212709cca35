// Why something is refused: document 01's and 02's numbers by name (docs/REFUSALS.md has the table).
ghost use Rattle.std.specs.Prelude.{◌≡◌};
ghost use Rattle.prelude.specs.Refusals.{number_of};

// In the order of the numbers, which begin with 1.
#[derive(Clone, Copy, Debug, PartialEq, Eq)]
pub enum Refusal {
    ShortOutput,
    LongMessage,
    KnownNames,
    FullStops,
    Misspelled,
    LongHeader,
    Unread,
    ManyMembers,
    NameTwice,
    Shape,
    ManyRecipients,
    NameInTwoHeaders,
    Incomplete,
    WrongKind,
    Unlisted,
    Unprotected,
    Critical,
    WrongKey,
    NoSuchRecipient,
    RecipientTable,
    ContentAlgorithms,
}

impl Refusal {
    // The number that the papers give it, and C.
    pub fn number(self) -> u32
        ensures { result ≡ number_of self }
    {
        match self {
            Refusal::ShortOutput => 1,
            Refusal::LongMessage => 2,
            Refusal::KnownNames => 3,
            Refusal::FullStops => 4,
            Refusal::Misspelled => 5,
            Refusal::LongHeader => 6,
            Refusal::Unread => 7,
            Refusal::ManyMembers => 8,
            Refusal::NameTwice => 9,
            Refusal::Shape => 10,
            Refusal::ManyRecipients => 11,
            Refusal::NameInTwoHeaders => 12,
            Refusal::Incomplete => 13,
            Refusal::WrongKind => 14,
            Refusal::Unlisted => 15,
            Refusal::Unprotected => 16,
            Refusal::Critical => 17,
            Refusal::WrongKey => 18,
            Refusal::NoSuchRecipient => 19,
            Refusal::RecipientTable => 20,
            Refusal::ContentAlgorithms => 21,
        }
    }
}
