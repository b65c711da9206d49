// Every limit, once. The definitions have theirs in Limits of `spec`.
use bits::WORD_BITS;

// The bytes of a sheet.
pub const SHEET_LIMIT: usize = 65_536;

// The permissions of a sheet.
pub const PERMISSION_LIMIT: usize = 128;

// The users of a sheet.
pub const USER_LIMIT: usize = 256;

// The bytes of a name.
pub const NAME_LIMIT: usize = 16;

// The grants of a sheet.
pub const GRANT_LIMIT: usize = 2_048;

// The grants of a kernel that is searched.
pub const KERNEL_LIMIT: usize = 128;

// The bytes of a book.
pub const BOOK_LIMIT: usize = 131_072;

// The roles of a book: as many as permissions, since no cover needs more.
pub const ROLE_LIMIT: usize = PERMISSION_LIMIT;

// The words of a row, and its bits: as many as permissions can be.
pub const ROW_WORDS: usize = 2;

pub const ROW_BITS: usize = ROW_WORDS * WORD_BITS;

// The words of the rows of all users that a sheet can have, and the cells of these rows.
pub const CELL_WORDS: usize = USER_LIMIT * ROW_WORDS;

pub const CELL_LIMIT: usize = CELL_WORDS * WORD_BITS;

// The words of the rows of all roles that a book can have.
pub const ROLE_WORDS: usize = ROLE_LIMIT * ROW_WORDS;

// The words of a set of kernel grants, and those of a table with such a set for each grant.
pub const KERNEL_WORDS: usize = KERNEL_LIMIT / WORD_BITS;

pub const TABLE_WORDS: usize = KERNEL_LIMIT * KERNEL_WORDS;

// No number of lines of a book reaches this.
pub const COUNT_CAP: usize = BOOK_LIMIT + 1;
