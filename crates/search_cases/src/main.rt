// Closes the search of the kernel of four users who hold every permission but their own: 12 grants, a first placement
// of 4 classes, a witness of 3 and no singles. For one search of 124 steps, for one of 125, for searches of 7 steps
// that each go on where the one before came to, and for one more of the finished machine, a line has the steps made,
// how many of them placed, took back and closed, the searches, whether the machine is then finished, and the classes of
// the best placement. Then, for both budgets, a line has whether the steps made one by one came to the same as the one
// search, and were of the same kinds.

#![tactic(auto)]

mod crown;
mod one_by_one;
mod print;

ghost use Rattle.search_cases.specs.Crown.{grants};
ghost use Rattle.search.specs.View.{PositionStands};

use moves::Kinds;
use numbers::TABLE_WORDS;
use one_by_one::as_the_search;
use search::{Position, Ran};

// What one step fewer than enough is, what is enough, and the budget of each of many searches.
const TOO_FEW: u32 = 124;

const ENOUGH: u32 = 125;

const PART: u32 = 7;

// More searches than these are not tried.
const MOST: u32 = 100;

// The position before the first step.
fn start() -> Position
    ensures { PositionStands grants result }
{
    Position::start(crown::by_user(), crown::USERS, crown::SIZES)
}

// A line about some searches, which together led so.
fn report(ran: Ran, searches: u32) {
    print::number(ran.steps as usize);
    print::text(b",");
    print::number(ran.kinds.placed as usize);
    print::text(b",");
    print::number(ran.kinds.taken_back as usize);
    print::text(b",");
    print::number(ran.kinds.closed as usize);
    print::text(b",");
    print::number(searches as usize);
    if ran.position.cursor.finished {
        print::text(b",finished,");
    } else {
        print::text(b",open,");
    }
    print::number(ran.position.cursor.count);
    print::text(b"\n");
}

// One search from the start.
fn one_search(fit: &[u64; TABLE_WORDS], budget: u32) {
    report(start().search(fit, crown::SIZES, budget), 1);
}

// Searches from the start until the machine is finished, and then one more of the finished machine by itself.
fn many_searches(fit: &[u64; TABLE_WORDS]) {
    let mut position = start();
    let mut steps = 0;
    let mut placed = 0;
    let mut taken_back = 0;
    let mut closed = 0;
    let mut searches = 0;
    // The searches end before their limit where the machine is finished.
    while searches < MOST && !position.cursor.finished {
        let ran = position.search(fit, crown::SIZES, PART);
        position = ran.position;
        steps += ran.steps;
        placed += ran.kinds.placed;
        taken_back += ran.kinds.taken_back;
        closed += ran.kinds.closed;
        searches += 1;
    }
    let kinds = Kinds {
        placed,
        taken_back,
        closed,
    };
    report(
        Ran {
            position,
            steps,
            kinds,
        },
        searches,
    );
    report(position.search(fit, crown::SIZES, PART), 1);
}

// The steps of one search made one by one, beside the search.
fn steps_beside(fit: &[u64; TABLE_WORDS], budget: u32) {
    print::number(budget as usize);
    if as_the_search(start(), fit, budget) {
        print::text(b",same\n");
    } else {
        print::text(b",other\n");
    }
}

fn main() {
    let fit = crown::table();
    print::text(b"steps,placed,taken back,closed,searches,state,classes\n");
    one_search(&fit, TOO_FEW);
    one_search(&fit, ENOUGH);
    many_searches(&fit);
    print::text(b"budget,one by one\n");
    steps_beside(&fit, TOO_FEW);
    steps_beside(&fit, ENOUGH);
}
