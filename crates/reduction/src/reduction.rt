// The reduction: sweeps that remove singles and tie dominating grants, until one removes nothing.
ghost use Rattle.std.specs.Prelude.{◌≡◌, ◌≤◌, length};
ghost use Rattle.spec.specs.Limits.{grant_limit};
ghost use Rattle.spec.specs.Reduction.{singles_of};
ghost use Rattle.lists.specs.PassingBelow.{passing_below};
ghost use Rattle.verdict.specs.Log.{log_of};
ghost use Rattle.cell_rows.specs.CellPlaces.{marked, Shows, cells_of};
ghost use Rattle.fit.specs.Columns.{Columns};
ghost use Rattle.reduction.specs.CarriedOut.{Carriable, CarriedOut};
ghost use Rattle.reduction.specs.ReductionResult.{ReducedFrom};
ghost use Rattle.reduction.specs.WorkAt.{work_at};
ghost use Rattle.verdict.specs.ReductionWork.{WorkReady, Visited, Removable, Removed};

use bits::WORD_BITS;
use fit::PLACE_WORDS;
use numbers::{CELL_WORDS, CellNo, GRANT_LIMIT, ROW_WORDS, UserNo};
use verdict::{Verdict, has_grants, insides, judge};

// The cells of the kernel, and the removals in order: the cell of each, and its partner's, which is its own where it
// was removed as single.
#[repr(C)]
#[derive(Clone, Copy)]
pub struct Reduced {
    pub left: [u64; CELL_WORDS],
    pub removed: [u16; GRANT_LIMIT],
    pub partner: [u16; GRANT_LIMIT],
    pub count: usize,
    pub singles: usize,
}

// The work: the cells that remain, and the removals so far, written as in the result.
struct Work {
    left: [u64; CELL_WORDS],
    removed: [u16; GRANT_LIMIT],
    partner: [u16; GRANT_LIMIT],
    count: usize,
}

impl Work {
    // One grant is removed, with the partner that it is tied to, or itself.
    #[tactic(auto, unfolding(spec::specs::Limits::user_limit, spec::specs::Limits::grant_limit, cell_rows::specs::Rows::row_words))]
    fn remove(&mut self, it: CellNo, other: CellNo)
        requires { Removable it.0 other.0 (work_at self.old) }
        ensures { Removed it.0 other.0 (work_at self.old) (work_at self.new) }
    {
        let at = it.0;
        let i = at / WORD_BITS;
        self.left[i] = bits::without(self.left[i], at % WORD_BITS);
        self.removed[self.count] = at as u16;
        self.partner[self.count] = other.0 as u16;
        self.count += 1;
    }

    // What is judged of the grant at a cell is carried out.
    fn carry_out(&mut self, it: CellNo, verdict: Verdict)
        requires { Carriable it.0 verdict (work_at self.old) }
        ensures { CarriedOut it.0 verdict (work_at self.old) (work_at self.new) }
    {
        match verdict {
            Verdict::Stays => {}
            Verdict::Single => self.remove(it, it),
            Verdict::Tied(other) => self.remove(it, other),
        }
    }

    // All remaining grants are visited, in rising number, and each is judged against those remaining at that moment.
    #[tactic(auto, unfolding(spec::specs::Limits::user_limit, cell_rows::specs::Rows::row_words))]
    fn sweep(&mut self, rows: &[u64; CELL_WORDS], columns: &[u64; PLACE_WORDS], users: usize)
        requires { WorkReady rows.now users (work_at self.old) × Columns rows.now columns.now }
        ensures { Visited rows.now users (passing_below (cells_of users) (marked self.old.left))
            (work_at self.old) (work_at self.new) }
    {
        for u in 0..users {
            if has_grants(&self.left, UserNo(u)) {
                let inside = insides(rows, columns, &self.left, UserNo(u));
                for d in 0..ROW_WORDS {
                    let i = u * ROW_WORDS + d;
                    for q in bits::positions(self.left[i]) {
                        let n = i * WORD_BITS + q;
                        let verdict = judge(rows, columns, &inside, &self.left, users, CellNo(n));
                        self.carry_out(CellNo(n), verdict);
                    }
                }
            }
        }
    }

    // How many of the removals are singles.
    #[tactic(auto, unfolding(spec::specs::Limits::grant_limit))]
    fn singles(&self) -> usize
        requires { self.now.count ≤ grant_limit }
        ensures { result
            ≡ length (singles_of (log_of self.now.removed self.now.partner self.now.count)) }
    {
        let mut singles = 0;
        for i in 0..self.count {
            if self.removed[i] == self.partner[i] {
                singles += 1;
            }
        }
        singles
    }
}

// The reduction of the sheet that the rows show, by their columns: sweeps repeat until one removes nothing. Past the
// removals the log is 0.
pub fn reduce<'a>(
    rows: &'a [u64; CELL_WORDS],
    columns: &'a [u64; PLACE_WORDS],
    users: usize,
) -> Reduced
    requires { Shows rows.now users × Columns rows.now columns.now }
    ensures { ReducedFrom rows.now users result }
{
    let mut work = Work {
        left: *rows,
        removed: [0; GRANT_LIMIT],
        partner: [0; GRANT_LIMIT],
        count: 0,
    };
    // How many sweeps there are shows only as they are made: the last one removes nothing.
    loop {
        let before = work.count;
        work.sweep(rows, columns, users);
        if work.count == before {
            break;
        }
    }
    let singles = work.singles();
    let Work {
        left,
        removed,
        partner,
        count,
    } = work;
    Reduced {
        left,
        removed,
        partner,
        count,
        singles,
    }
}
