// The classes of all grants, by cell: the kernel's placement, and the removals gone back over.
ghost use Rattle.std.specs.Prelude.{◌≡◌, [], ◌≤◌, length};
ghost use Rattle.spec.specs.Limits.{grant_limit};
ghost use Rattle.spec.specs.Cover.{used};
ghost use Rattle.lists.specs.LatestFirst.{latest_first};
ghost use Rattle.roles.specs.CellClasses.{ClassAt, ClassesAt, CellsBelow, classes_in, paired_in};

use numbers::CELL_LIMIT;

// Puts the classes of the kernel's grants into an array that has no class yet, each at its cell.
fn place_kernel<'a>(class: &mut [u16; CELL_LIMIT], kernel: &'a [u16], placed: &'a [u8])
    requires { (length placed.now ≡ length kernel.now) × CellsBelow (length kernel.now) kernel.now
        × ClassAt class.old [] }
    ensures { ClassAt class.new (paired_in kernel.now placed.now
        (length kernel.now)) }
{
    for (cell, number) in kernel.iter().zip(placed) {
        class[*cell as usize] = u16::from(*number);
    }
}

// Puts the classes of all grants into an array that has no class yet, from a placement of the kernel and the
// removals, the latest gone back over first: a single opens a class, a tied grant joins its partner's. The class put
// back last is kept at hand, as the next grant is often tied to that one. How many classes there are.
pub fn all_classes<'a>(
    class: &mut [u16; CELL_LIMIT],
    kernel: &'a [u16],
    placed: &'a [u8],
    total: usize,
    removed: &'a [u16],
    partner: &'a [u16],
) -> usize
    requires placed_len { (length placed.now ≡ length kernel.now) × CellsBelow (length kernel.now) kernel.now
        × ClassAt class.old [] }
    requires total_value { (total ≡ used (latest_first placed.now (length kernel.now))) × (total ≤ grant_limit) }
    requires removed_len_bound { (length removed.now ≤ grant_limit) × (length partner.now ≡ length removed.now)
        × CellsBelow (length removed.now) removed.now × CellsBelow (length removed.now) partner.now }
    ensures { ClassesAt class.new result (classes_in kernel.now placed.now
        removed.now partner.now) }
{
    place_kernel(class, kernel, placed);
    let mut opened = total;
    let mut last = 0;
    let mut known = class[0];
    for i in (0..removed.len()).rev() {
        let cell = removed[i] as usize;
        let tie = partner[i] as usize;
        if cell == tie {
            known = opened as u16;
            opened += 1;
        } else if tie != last {
            known = class[tie];
        }
        class[cell] = known;
        last = cell;
    }
    opened
}
