// The budget of a search, and the number of searches of the long search, each given as a word.
ghost use Rattle.std.specs.Prelude.{◌≡◌, [], ◌∷◌};
ghost use Rattle.spec.specs.Program.{budget_of};
ghost use Rattle.spec.specs.LongSearch.{rounds_of};
ghost use Rattle.digits.specs.BudgetRead.{budget_read};

use crate::digits::digits_of;

// One more than the greatest budget.
const BUDGET_CAP: usize = 4_294_967_296;

// The number that a word says, if it is decimal digits, at least one, of value at most 4,294,967,295.
pub fn read_budget(word: &[u8]) -> Option<u32>
    ensures { result ≡ budget_read word.now }
{
    if word.len() == 0 {
        return None;
    }
    let n = digits_of(word, BUDGET_CAP)?;
    if n < BUDGET_CAP { Some(n as u32) } else { None }
}

// The budget that a word gives: 0 where it is no number of that range.
pub fn budget_of(word: &[u8]) -> u32
    ensures { result ≡ budget_of (word.now ∷ []) }
{
    read_budget(word).unwrap_or(0)
}

// The searches that the long search makes where no number of them is given.
const USUAL_ROUNDS: u32 = 3_600;

// The number of searches that a word gives: the usual one where it is 0 or no number of that range.
pub fn rounds_of(word: &[u8]) -> u32
    ensures { result ≡ rounds_of (word.now ∷ []) }
{
    let n = budget_of(word);
    if n == 0 { USUAL_ROUNDS } else { n }
}
