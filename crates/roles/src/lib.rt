// Roles from a placement of the kernel: the classes of all grants, the roles by their lowest grant and their two
// matrices.

#![tactic(auto)]

mod classes;
mod limits;
mod matrices;
mod numbering;
mod rows;

pub use matrices::roles_of;
pub use rows::RoleMatrices;
