// A user's row of the product, role after role.
ghost use Rattle.std.specs.Prelude.{◌≡◌, ℕ, ◌+◌, ◌*◌, ◌≤◌, ◌<◌, length};
ghost use Rattle.bits.specs.Bit.{bit, word_bits};
ghost use Rattle.cell_rows.specs.Rows.{row_words, row_bits, cell};
ghost use Rattle.cell_rows.specs.RowWords.{before_word};
ghost use Rattle.product.specs.RowAfter.{RowAfter};

use bits::WORD_BITS;
use cell_rows::cells_in_word;
use numbers::{ROW_WORDS, RoleNo, UserNo};

// A word with every position if yes, else with none.
fn all_if(yes: bool) -> u64
    ensures { (q : ℕ) → q < word_bits → bit result q ≡ yes }
{
    if yes { !0 } else { 0 }
}

// One step: a user's row after all roles before this one takes this one, and is the row after one role more. A
// permission is in it if it was, or if the user has the role and the role holds it. Whether the user has the role is
// handed in (`owned`), since `take_word` reads it off the user's word; `has` and `u` are there for the contract.
fn take_role(
    row: &mut [u64; ROW_WORDS],
    has: &[u64],
    gives: &[u64],
    u: UserNo,
    role: RoleNo,
    owned: bool,
)
    requires row_len { (length row.old ≡ row_words) × ((role.0 + 1) * row_words ≤ length gives.now)
        × (owned ≡ cell has.now u.0 role.0) }
    requires row_after { RowAfter has.now gives.now u.0 role.0 row.old }
    ensures { (length row.new ≡ row_words)
        × RowAfter has.now gives.now u.0 (role.0 + 1) row.new }
{
    let all = all_if(owned);
    for (k, word) in row.iter_mut().enumerate() {
        *word |= all & gives[role.0 * ROW_WORDS + k];
    }
}

// A user's row after those of the first r roles that stand before word j takes those of word j too. The text has each of
// them in its turn, also one that the user does not have. `rest` is the user's word without its lowest b positions, so
// that position 0 of it says whether the user has role first + b.
fn take_word(row: &mut [u64; ROW_WORDS], has: &[u64], gives: &[u64], u: UserNo, j: usize, r: usize)
    requires row_len { (length row.old ≡ row_words) × (j < row_words) × ((u.0 + 1) * row_words ≤ length has.now)
        × (r * row_words ≤ length gives.now) }
    requires row_after { RowAfter has.now gives.now u.0 (before_word r j) row.old }
    ensures { (length row.new ≡ row_words)
        × RowAfter has.now gives.now u.0 (before_word r (j + 1)) row.new }
{
    let first = j * WORD_BITS;
    let count = cells_in_word(r, j);
    let mut rest = has[u.0 * ROW_WORDS + j];
    for b in 0..count {
        let role = first + b;
        take_role(row, has, gives, u, RoleNo(role), rest % 2 == 1);
        rest /= 2;
    }
}

// What a user's row has after the first r roles, which are document 001's roles 1 to r. The text takes them one after
// the other from number 0 on, every one of them.
pub fn row_after(has: &[u64], gives: &[u64], u: UserNo, r: usize) -> [u64; ROW_WORDS]
    requires { (r ≤ row_bits) × ((u.0 + 1) * row_words ≤ length has.now)
        × (r * row_words ≤ length gives.now) }
    ensures { RowAfter has.now gives.now u.0 r result }
{
    let mut row = [0; ROW_WORDS];
    for j in 0..ROW_WORDS {
        take_word(&mut row, has, gives, u, j, r);
    }
    row
}
