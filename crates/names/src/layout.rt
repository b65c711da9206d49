// The layout of an accepted sheet: its counts, and where its names stand.
ghost use Rattle.std.specs.Prelude.{◌≡◌, [], ◌<◌, get_or};
ghost use Rattle.spec.specs.Sheet.{sheet_of, user_count, permission_count};
ghost use Rattle.names.specs.LaidOut.{UsersAt, PermissionsAt};
ghost use Rattle.names.specs.NoLayout.{no_layout};

use crate::lookup::part_at;
use numbers::{PermissionNo, UserNo};
use places::Places;

#[repr(C)]
#[derive(Clone, Copy)]
pub struct Layout {
    pub users: usize,
    pub permissions: usize,
    pub grants: usize,
    pub user_places: Places,
    pub permission_places: Places,
}

impl Layout {
    // The layout of nothing.
    pub fn none() -> Layout
        ensures { result ≡ no_layout }
    {
        let places = Places::none();
        Layout {
            users: 0,
            permissions: 0,
            grants: 0,
            user_places: places,
            permission_places: places,
        }
    }
}

// The name of user u, with the users' places lent: a loop that asks for many names copies no layout.
pub fn user_name_in<'a, 'b>(s: &'a [u8], places: &'b [u64], u: UserNo) -> &'a [u8]
    requires { UsersAt s.now places.now × (u.0 < user_count (sheet_of s.now)) }
    ensures { result.now ≡ get_or (sheet_of s.now).users u.0 [] }
{
    part_at(s, places, u.0)
}

// The name of permission p, with the permissions' places lent.
pub fn permission_name_in<'a, 'b>(s: &'a [u8], places: &'b [u64], p: PermissionNo) -> &'a [u8]
    requires { PermissionsAt s.now places.now × (p.0 < permission_count (sheet_of s.now)) }
    ensures { result.now ≡ get_or (sheet_of s.now).permissions p.0 [] }
{
    part_at(s, places, p.0)
}
