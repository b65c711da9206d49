// Block 3: the roles of each user.
ghost use Rattle.std.specs.Prelude.{◌*◌, ◌≤◌, length};
ghost use Rattle.spec.specs.Text.{line_text, text_of};
ghost use Rattle.spec.specs.Sheet.{sheet_of, user_count};
ghost use Rattle.lists.specs.Listed.{listed};
ghost use Rattle.cell_rows.specs.Rows.{row_words, row_bits};
ghost use Rattle.names.specs.LaidOut.{UsersAt};
ghost use Rattle.book_lines.specs.RowsSaid.{user_line, shown_users};
ghost use Rattle.text.specs.Written.{Written};

use book_lines::{put_named_line, put_role_fields};
use names::user_name_in;
use numbers::UserNo;
use text::put_bytes;

// Writes the lines of all users.
fn put_user_lines<'a, 'b>(
    out: &mut [u8],
    s: &'a [u8],
    places: &'b [u64],
    has: &'a [u64],
    roles: usize,
) -> usize
    requires users_at { UsersAt s.now places.now × (roles ≤ row_bits)
        × (user_count (sheet_of s.now) * row_words ≤ length has.now) }
    requires room { length (listed (user_count (sheet_of s.now))
        (λ u. line_text (user_line (sheet_of s.now) has.now roles u))) ≤ length out.old }
    ensures { Written (listed (user_count (sheet_of s.now))
        (λ u. line_text (user_line (sheet_of s.now) has.now roles u)))
        out.old out.new result }
{
    let mut at = 0;
    for i in 0..places.len() {
        let name = user_name_in(s, places, UserNo(i));
        at += put_named_line(&mut out[at..], name, has, i, roles);
    }
    at
}

// Writes block 3.
pub fn put_users<'a, 'b>(
    out: &mut [u8],
    s: &'a [u8],
    places: &'b [u64],
    has: &'a [u64],
    roles: usize,
) -> usize
    requires users_at { UsersAt s.now places.now × (roles ≤ row_bits)
        × (user_count (sheet_of s.now) * row_words ≤ length has.now) }
    requires roles_in_bounds { length (text_of (shown_users (sheet_of s.now) has.now roles)) ≤ length out.old }
    ensures { Written (text_of (shown_users (sheet_of s.now) has.now roles))
        out.old out.new result }
{
    let names = put_bytes(out, b"user");
    let end = names + put_role_fields(&mut out[names..], roles);
    out[end] = b'\n';
    let lines = end + 1;
    lines + put_user_lines(&mut out[lines..], s, places, has, roles)
}
