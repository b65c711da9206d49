// Block 2: the permissions of each role.
ghost use Rattle.std.specs.Prelude.{◌+◌, ◌*◌, ◌≤◌, ◌<◌, length};
ghost use Rattle.std.proofs.Math.Bool.{So};
ghost use Rattle.spec.specs.Text.{line_text, text_of};
ghost use Rattle.spec.specs.Sheet.{sheet_of};
ghost use Rattle.spec.specs.Refusal.{accepted};
ghost use Rattle.lists.specs.Listed.{listed};
ghost use Rattle.names.specs.LaidOut.{PermissionsAt};
ghost use Rattle.cell_rows.specs.Rows.{row_words, row_bits};
ghost use Rattle.book_lines.specs.RowsSaid.{role_heading, role_line, shown_roles};
ghost use Rattle.text.specs.Written.{Written};

use book_lines::{ROLE_NAME_BYTES, permissions_line, put_named_line, put_role_name};
use numbers::RoleNo;
use text::put_bytes;

// Writes the line of names: `role`, and the permissions as they stand behind `user` in the sheet's own first line.
fn put_role_heading(out: &mut [u8], s: &[u8]) -> usize
    requires sheet { So (accepted s.now) }
    requires room { length (line_text (role_heading (sheet_of s.now))) ≤ length out.old }
    ensures { Written (line_text (role_heading (sheet_of s.now))) out.old
        out.new result }
{
    let names = put_bytes(out, b"role");
    names + put_bytes(&mut out[names..], permissions_line(s))
}

// Writes the line of a role.
fn put_role_line(out: &mut [u8], gives: &[u64], role: RoleNo, permissions: usize) -> usize
    requires within { (role.0 < row_bits) × (permissions ≤ row_bits) × ((role.0 + 1) * row_words ≤ length gives.now) }
    requires room { length (line_text (role_line gives.now permissions role.0)) ≤ length out.old }
    ensures { Written (line_text (role_line gives.now permissions role.0)) out.old
        out.new result }
{
    let mut name = [0u8; ROLE_NAME_BYTES];
    let end = put_role_name(&mut name, role);
    put_named_line(out, &name[..end], gives, role.0, permissions)
}

// Writes the lines of so many roles.
fn put_role_lines(out: &mut [u8], gives: &[u64], roles: usize, permissions: usize) -> usize
    requires within { (roles ≤ row_bits) × (permissions ≤ row_bits) × (roles * row_words ≤ length gives.now) }
    requires room { length (listed roles (λ r. line_text (role_line gives.now permissions r))) ≤ length out.old }
    ensures { Written (listed roles (λ r. line_text (role_line gives.now permissions r)))
        out.old out.new result }
{
    let mut at = 0;
    for i in 0..roles {
        at += put_role_line(&mut out[at..], gives, RoleNo(i), permissions);
    }
    at
}

// Writes block 2.
pub fn put_roles<'a, 'b>(
    out: &mut [u8],
    s: &'a [u8],
    places: &'b [u64],
    gives: &'a [u64],
    roles: usize,
) -> usize
    requires permissions_at { PermissionsAt s.now places.now × (roles ≤ row_bits) × (roles * row_words ≤ length gives.now) }
    requires roles_in_bounds { length (text_of (shown_roles (sheet_of s.now) gives.now roles)) ≤ length out.old }
    ensures { Written (text_of (shown_roles (sheet_of s.now) gives.now roles))
        out.old out.new result }
{
    let lines = put_role_heading(out, s);
    lines + put_role_lines(&mut out[lines..], gives, roles, places.len())
}
