// Class numbers from the first cover to a position, and the best placement from both.
ghost use Rattle.std.specs.Prelude.{◌≡◌, ℕ, ◌≤◌, length, take};
ghost use Rattle.spec.specs.Limits.{search_limit};
ghost use Rattle.lists.specs.LatestFirst.{latest_first};
ghost use Rattle.kept.specs.BestOf.{best_classes};

use numbers::{GRANT_LIMIT, KERNEL_LIMIT};

// The classes of as many grants as are searched.
pub fn first_classes(classes: &[u8; GRANT_LIMIT]) -> [u8; KERNEL_LIMIT]
    ensures { (n : ℕ) → n ≤ search_limit → latest_first result n ≡ latest_first classes.now n }
{
    let mut first = [0u8; KERNEL_LIMIT];
    first.copy_from_slice(&classes[..KERNEL_LIMIT]);
    first
}

// The best placement of a kernel: the position's, or the first one where the kernel is too great to be searched.
#[tactic(auto, unfolding(spec::specs::Limits::search_limit))]
pub fn best_of<'a>(first: &'a [u8], best: &'a [u8], size: usize) -> &'a [u8]
    requires { size ≤ length (best_classes first.now best.now size) }
    ensures { result.now ≡ take size (best_classes first.now best.now size) }
{
    if KERNEL_LIMIT < size {
        return &first[..size];
    }
    &best[..size]
}
