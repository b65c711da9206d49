// The judgement of a sheet: the lowest number of a cause that applies.
ghost use Rattle.std.specs.Prelude.{◌≡◌, ◌&&◌, ◌||◌, ◌≤◌, length, drop};
ghost use mathlib.Core.List.{map, tail};
ghost use Rattle.spec.specs.Vocabulary.{repeats};
ghost use Rattle.spec.specs.Limits.{sheet_limit, permission_limit, user_limit};
ghost use Rattle.spec.specs.Text.{ascii, same_bytes, between, lines_of, same_name};
ghost use Rattle.spec.specs.Sheet.{first_field};
ghost use Rattle.spec.specs.Refusal.{bad_bytes, refusal};
ghost use Rattle.places.specs.Places.{part};
ghost use Rattle.numbers.specs.Refusal.{number_said};
ghost use Rattle.refusal.specs.FirstLine.{line_fields};
ghost use Rattle.refusal.specs.ReadLine.{ReadLine};

use crate::body::read_body;
use crate::line::{LineRead, read_line};
use crate::name_places::{permission_places, user_places};
use buckets::repeated_in;
use numbers::{GRANT_LIMIT, PERMISSION_LIMIT, Refusal, SHEET_LIMIT, USER_LIMIT};
use spelling::{Kind, all_of, is_user, is_within};

// Whether the sheet is accepted, and else the cause of the lowest number that applies.
pub fn judge(s: &[u8]) -> Result<(), Refusal>
    ensures { number_said result ≡ refusal s.now }
{
    if SHEET_LIMIT < s.len() {
        return Err(Refusal::SheetTooLong);
    }
    if has_bad_bytes(s) {
        return Err(Refusal::BadBytes);
    }
    let head = read_line(s, 0);
    if !good_first_line(s, head) {
        return Err(Refusal::BadFirstLine);
    }
    let body = read_body(s, head.next, head.cells.count);
    if !is_within(1, USER_LIMIT, body.users) {
        return Err(Refusal::UserCount);
    }
    if !head.cells.names || !body.names {
        return Err(Refusal::NameLength);
    }
    if !body.even {
        return Err(Refusal::UnevenLine);
    }
    if !body.bits {
        return Err(Refusal::BadCell);
    }
    if has_name_twice(s, head, body.users) {
        return Err(Refusal::NameTwice);
    }
    if GRANT_LIMIT < body.ones {
        return Err(Refusal::TooManyGrants);
    }
    Ok(())
}

// Whether the sheet is empty, its last byte is no line feed, or a byte is not allowed.
#[tactic(auto, using(crate::specs::Laws::BadBytes::bad_as_ended))]
pub fn has_bad_bytes(s: &[u8]) -> bool
    ensures { result ≡ bad_bytes s.now }
{
    !s.ends_with(b"\n") || !all_of(s, Kind::Sheet)
}

// Whether the first field of the first line is `user`, and as many fields follow as there can be permissions.
#[tactic(auto, unfolding(spec::specs::Limits::permission_limit))]
fn good_first_line(s: &[u8], head: LineRead) -> bool
    requires { head.to ≤ length s.now }
    ensures { result ≡ (same_bytes (part 0 head.to s.now) (ascii "user") && between 1 permission_limit
        head.cells.count) }
{
    let to = head.to;
    is_user(&s[..to]) && is_within(1, PERMISSION_LIMIT, head.cells.count)
}

// Whether two of the users or two of the permissions have one name.
fn has_name_twice(s: &[u8], head: LineRead, users: usize) -> bool
    requires read_line { ReadLine s.now 0 head }
    requires users_value { users ≡ length (lines_of (drop head.next s.now)) }
    requires users_le_user_limit { (users ≤ user_limit) × (head.cells.count ≤ permission_limit)
        × (length s.now ≤ sheet_limit) }
    ensures { result ≡ (repeats same_name (map first_field (lines_of (drop head.next s.now)))
        || repeats same_name (tail (line_fields s.now))) }
{
    let user_places = user_places(s, head.next, users);
    if repeated_in(s, &user_places[..users]) {
        return true;
    }
    let permissions = head.cells.count;
    let permission_places = permission_places(s, permissions);
    repeated_in(s, &permission_places[..permissions])
}
