// Where the names of a sheet stand, noted line after line and field after field.
ghost use Rattle.std.specs.Prelude.{◌≡◌, suc, ◌≤◌, ◌<◌, length, drop};
ghost use mathlib.Core.List.{tail};
ghost use Rattle.spec.specs.Limits.{user_limit};
ghost use Rattle.spec.specs.Text.{lines_of};
ghost use Rattle.places.specs.Places.{place_base, PlacedBelow};
ghost use Rattle.refusal.specs.FirstLine.{line_fields};
ghost use Rattle.refusal.specs.UserPlaces.{UserPlaces};

use crate::line::read_line;
use numbers::USER_LIMIT;
use places::place_of;
use reader::Cursor;

// Where the names of the lines from `at` on stand, of which there are so many.
pub fn user_places(s: &[u8], at: usize, users: usize) -> [u64; USER_LIMIT]
    requires room { (at ≤ suc (length s.now)) × (users ≤ user_limit) × (length s.now < place_base) }
    requires users_value { users ≡ length (lines_of (drop at s.now)) }
    ensures { UserPlaces s.now at result }
{
    let mut places = [0; USER_LIMIT];
    let mut from = at;
    for n in 0..users {
        let line = read_line(s, from);
        places[n] = place_of(from, line.to);
        from = line.next;
    }
    places
}

// Where the fields after the first of the first line stand, of which there are so many.
pub fn permission_places(s: &[u8], permissions: usize) -> [u64; USER_LIMIT]
    requires room { (permissions ≤ user_limit) × (length s.now < place_base) }
    requires permissions_value { permissions ≡ length (tail (line_fields s.now)) }
    ensures { PlacedBelow (length (tail (line_fields s.now))) s.now result
        (tail (line_fields s.now)) }
{
    let mut places = [0; USER_LIMIT];
    let mut next = Cursor { at: 0 }.field(s).next;
    for n in 0..permissions {
        let field = next.field(s);
        places[n] = place_of(field.from, field.to);
        next = field.next;
    }
    places
}
