// Why a call is refused.
ghost use Rattle.std.specs.Prelude.{◌≡◌};
ghost use Rattle.numbers.specs.Refusal.{number_of};

// The causes, in the order of their numbers.
#[derive(Clone, Copy, PartialEq, Eq)]
pub enum Refusal {
    // The sheet has more bytes than a sheet can have.
    SheetTooLong,
    // The sheet is empty, its last byte is no line feed, or a byte is not allowed; so too the line of a newcomer.
    BadBytes,
    // The first field is not `user`, or the first line has too few or too many fields.
    BadFirstLine,
    // There is no user line, or there are too many.
    UserCount,
    // A name is empty or too long.
    NameLength,
    // A line has another field count than the first.
    UnevenLine,
    // A field after a user name is not `0` or `1`.
    BadCell,
    // Two users or two permissions have one name.
    NameTwice,
    // The sheet has too many grants.
    TooManyGrants,
    // No sheet was accepted.
    NoSheet,
    // The lent buffer is shorter than what would be written.
    BufferTooShort,
    // The book is too long or not of the form, or a name of its witness is unknown.
    BookForm,
    // The counts of the book disagree.
    BookCounts,
    // The product of the book is not the sheet.
    BookProduct,
    // A witness grant is not held, or two on different lines fit.
    BookWitness,
    // The sheet is not reduced yet.
    NotReduced,
    // A user has the name of the newcomer.
    NameTaken,
    // There are as many users as can be.
    UsersFull,
    // There are as many roles as can be, and the newcomer needs a new one.
    RolesFull,
}

impl Refusal {
    // The number that a caller is told.
    pub fn number(self) -> usize
        ensures { result ≡ number_of self }
    {
        match self {
            Refusal::SheetTooLong => 1,
            Refusal::BadBytes => 2,
            Refusal::BadFirstLine => 3,
            Refusal::UserCount => 4,
            Refusal::NameLength => 5,
            Refusal::UnevenLine => 6,
            Refusal::BadCell => 7,
            Refusal::NameTwice => 8,
            Refusal::TooManyGrants => 9,
            Refusal::NoSheet => 10,
            Refusal::BufferTooShort => 11,
            Refusal::BookForm => 12,
            Refusal::BookCounts => 13,
            Refusal::BookProduct => 14,
            Refusal::BookWitness => 15,
            Refusal::NotReduced => 16,
            Refusal::NameTaken => 17,
            Refusal::UsersFull => 18,
            Refusal::RolesFull => 19,
        }
    }
}
