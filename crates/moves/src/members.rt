// The members of each class as a table of words: for the first WORD_BITS grants a word of each class, then for the
// others. A bit says that its grant is in the class. So the classes that are looked through for one grant stand side
// by side.
ghost use Rattle.std.specs.Prelude.{◌≡◌, cond, ℕ, ◌<◌, ◌≤◌, eqb, get_or, length};
ghost use Rattle.bits.specs.Bit.{bit, word_bits};
ghost use Rattle.marks.specs.Marks.{mark_limit, table_words};
ghost use Rattle.moves.specs.OpenTo.{class_row};
ghost use Rattle.moves.specs.Gathered.{Gathered, MemberSet};

use bits::WORD_BITS;
use marks::Marks;
use numbers::{GrantNo, KERNEL_LIMIT, TABLE_WORDS};

// The members of one class.
pub fn of_class(members: &[u64; TABLE_WORDS], class: usize) -> Marks
    requires { class < mark_limit }
    ensures { result ≡ class_row members.now class }
{
    Marks {
        low: members[class],
        high: members[KERNEL_LIMIT + class],
    }
}

// A word in which one position is put in or taken out.
fn changed(word: u64, p: usize, put: bool) -> u64
    requires { p < word_bits }
    ensures { (q : ℕ) → bit result q ≡ cond (eqb q p) put (bit word q) }
{
    if put {
        bits::with(word, p)
    } else {
        bits::without(word, p)
    }
}

// Makes a grant a member of a class, or no member any more.
pub fn set(members: &mut [u64; TABLE_WORDS], class: usize, grant: GrantNo, member: bool)
    requires members_len { length members.old ≡ table_words }
    requires class_lt_mark_limit { class < mark_limit }
    requires grant_lt_mark_limit { grant.0 < mark_limit }
    ensures { MemberSet members.old class grant.0 member members.new }
{
    let g = grant.0;
    let at = g / WORD_BITS * KERNEL_LIMIT + class;
    members[at] = changed(members[at], g % WORD_BITS, member);
}

// The members of each class among the first grants.
pub fn gathered(classes: &[u8; KERNEL_LIMIT], depth: usize) -> [u64; TABLE_WORDS]
    requires depth_le_mark_limit { depth ≤ mark_limit }
    requires by_index { (i : ℕ) → i < depth → get_or classes.now i 0 < mark_limit }
    ensures { Gathered classes.now depth result }
{
    let mut members = [0u64; TABLE_WORDS];
    for i in 0..depth {
        set(&mut members, classes[i] as usize, GrantNo(i), true);
    }
    members
}
