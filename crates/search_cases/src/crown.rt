// The kernel: grants by user, then permission, where each user lacks the permission of the same number.
ghost use Rattle.std.specs.Prelude.{◌≡◌};
ghost use Rattle.spec.specs.Cover.{used};
ghost use Rattle.lists.specs.LatestFirst.{latest_first};
ghost use Rattle.search_cases.specs.Crown.{users, grants};

use moves::Sizes;
use numbers::{KERNEL_LIMIT, KERNEL_WORDS, TABLE_WORDS};

// How many users there are, and grants: one fewer for each user.
pub const USERS: usize = 4;

const HELD: usize = 3;

pub const GRANTS: usize = USERS * HELD;

// No grant is single, and the witness has three.
pub const SIZES: Sizes = Sizes {
    kernel: GRANTS,
    singles: 0,
    witness: 3,
};

// The permission of a grant, whose user is g / HELD.
fn permission(g: usize) -> usize {
    let p = g % HELD;
    if p < g / HELD { p } else { p + 1 }
}

// Whether two grants fit: the user of each holds the permission of the other.
fn fits(g: usize, h: usize) -> bool {
    if g / HELD == permission(h) {
        return false;
    }
    h / HELD != permission(g)
}

// The first word of a grant in the fit table.
fn row(g: usize) -> u64 {
    let mut word = 0;
    for h in 0..GRANTS {
        if fits(g, h) {
            word = bits::with(word, h);
        }
    }
    word
}

pub fn table() -> [u64; TABLE_WORDS] {
    let mut words = [0u64; TABLE_WORDS];
    for g in 0..GRANTS {
        words[g * KERNEL_WORDS] = row(g);
    }
    words
}

// A placement: the grants of each user in a class of their own.
pub fn by_user() -> [u8; KERNEL_LIMIT]
    ensures { users ≡ used (latest_first result grants) }
{
    let mut classes = [0u8; KERNEL_LIMIT];
    classes[3] = 1;
    classes[4] = 1;
    classes[5] = 1;
    classes[6] = 2;
    classes[7] = 2;
    classes[8] = 2;
    classes[9] = 3;
    classes[10] = 3;
    classes[11] = 3;
    classes
}
