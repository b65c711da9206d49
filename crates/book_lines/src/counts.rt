// Block 1: roles, bound and state.
ghost use Rattle.std.specs.Prelude.{◌≤◌, length};
ghost use Rattle.standing.specs.StandingCases.{standing_case};
ghost use Rattle.book_lines.specs.CountsText.{standing_text, counts_text};
ghost use Rattle.text.specs.Written.{Written};

use decimal::put_counted;
use standing::Standing;
use text::put_field;

// What block 1 says.
#[derive(Clone, Copy)]
pub struct Counts {
    pub roles: usize,
    pub bound: usize,
    pub standing: Standing,
}

// Writes the state as the last field of a line.
fn put_standing(out: &mut [u8], standing: Standing) -> usize
    requires { length (standing_text (standing_case standing)) ≤ length out.old }
    ensures { Written (standing_text (standing_case standing)) out.old out.new result }
{
    let end = put_field(out, standing.word());
    out[end] = b'\n';
    end + 1
}

// Writes block 1.
pub fn put_counts(out: &mut [u8], counts: Counts) -> usize
    requires { length (counts_text counts) ≤ length out.old }
    ensures { Written (counts_text counts) out.old out.new result }
{
    let roles = put_counted(out, b"roles,bound,state\n", counts.roles);
    let bound = roles + put_counted(&mut out[roles..], b",", counts.bound);
    let standing = counts.standing;
    bound + put_standing(&mut out[bound..], standing)
}
