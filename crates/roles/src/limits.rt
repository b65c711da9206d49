// How many classes there can be.
use numbers::GRANT_LIMIT;

// A class for each grant of the kernel, and one for each removal.
pub const CLASS_LIMIT: usize = 2 * GRANT_LIMIT;
