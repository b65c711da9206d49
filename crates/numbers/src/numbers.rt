// Numbers that count different things. None serves for another.

// The number of a user, from 0 in sheet order.
#[derive(Clone, Copy)]
pub struct UserNo(pub usize);

// The number of a permission, from 0 in sheet order.
#[derive(Clone, Copy)]
pub struct PermissionNo(pub usize);

// The number of a grant of a sheet or of its kernel, from 0 by user, then permission.
#[derive(Clone, Copy)]
pub struct GrantNo(pub usize);

// The number of a role, from 0 by its lowest grant.
#[derive(Clone, Copy)]
pub struct RoleNo(pub usize);

// The number of a cell: that of user u and permission p is u * ROW_BITS + p.
#[derive(Clone, Copy)]
pub struct CellNo(pub usize);
