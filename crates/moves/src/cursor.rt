// Where the machine stands within a kernel, what a step gives, and the sizes that it goes by.
use crate::kinds::StepKind;
use marks::Marks;

// Depth d, next try t, classes in use, class count b of the best placement, finished or not, and which grants opened
// a class.
#[repr(C)]
#[derive(Clone, Copy)]
pub struct Cursor {
    pub depth: usize,
    pub next: usize,
    pub used: usize,
    pub count: usize,
    pub finished: bool,
    pub opened: Marks,
}

// Where a step led, and which of the three it was.
#[derive(Clone, Copy)]
pub struct Step {
    pub cursor: Cursor,
    pub kind: StepKind,
}

// How many grants a kernel has, how many singles were removed, and how many grants are in the witness.
#[derive(Clone, Copy)]
pub struct Sizes {
    pub kernel: usize,
    pub singles: usize,
    pub witness: usize,
}
