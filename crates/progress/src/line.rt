// The line after a search, part by part.
ghost use Rattle.std.specs.Prelude.{◌≤◌, length};
ghost use Rattle.spec.specs.LongSearch.{progress_line};
ghost use Rattle.text.specs.Written.{Written};
ghost use Rattle.answers.specs.Said.{state_said, search_said};
ghost use Rattle.progress.specs.Parts.{gained_part, counts_part, speed_part, progress_most};

use answers::SearchAnswer;
use standing::Standing;

// The bytes of a line, at most.
pub const PROGRESS_BUFFER: usize = 192;

// Writes the depth gained, with a minus sign where more was taken back than placed.
fn put_gained(out: &mut [u8], placed: u32, taken_back: u32) -> usize
    requires { length (gained_part placed taken_back) ≤ length out.old }
    ensures { Written (gained_part placed taken_back) out.old out.new result }
{
    if placed < taken_back {
        return decimal::put_counted(
            out,
            b" steps so far, depth gained -",
            (taken_back - placed) as usize,
        );
    }
    decimal::put_counted(
        out,
        b" steps so far, depth gained ",
        (placed - taken_back) as usize,
    )
}

// Writes the state, and the steps a second behind it.
fn put_speed(out: &mut [u8], named: Option<Standing>, speed: usize) -> usize
    requires { length (speed_part (state_said named) speed) ≤ length out.old }
    ensures { Written (speed_part (state_said named) speed) out.old out.new result }
{
    let word: &[u8] = match named {
        None => b"-",
        Some(standing) => standing.word(),
    };
    let state = text::put_bytes(out, b", ");
    let end = state + text::put_bytes(&mut out[state..], word);
    end + decimal::put_counted(&mut out[end..], b", ", speed)
}

// Writes the front of the line: the steps so far, the depth gained, the roles and the bound.
fn put_counts(out: &mut [u8], so_far: usize, answer: SearchAnswer) -> usize
    requires { length (counts_part so_far (search_said answer)) ≤ length out.old }
    ensures { Written (counts_part so_far (search_said answer)) out.old out.new result }
{
    let a = decimal::put_decimal(out, so_far);
    let b = a + put_gained(&mut out[a..], answer.placed, answer.taken_back);
    let c = b + decimal::put_counted(&mut out[b..], b", ", answer.roles);
    c + decimal::put_counted(&mut out[c..], b" roles, bound ", answer.bound)
}

// Writes the line after a search: from the steps of all searches so far, its answer, and the steps a second.
pub fn put_progress(out: &mut [u8], so_far: usize, answer: SearchAnswer, speed: usize) -> usize
    requires { progress_most ≤ length out.old }
    ensures { Written (progress_line so_far (search_said answer) speed) out.old out.new
        result }
{
    let named = answer.state;
    let a = put_counts(out, so_far, answer);
    let b = a + put_speed(&mut out[a..], named, speed);
    b + text::put_bytes(&mut out[b..], b" steps a second\n")
}
