// The judgement of an accepted sheet with a line added.
ghost use Rattle.std.specs.Prelude.{◌≡◌};
ghost use Rattle.spec.specs.Refusal.{first_number};
ghost use Rattle.spec.specs.Newcomer.{longer_causes};
ghost use Rattle.names.specs.LaidOut.{LaidOut};
ghost use Rattle.numbers.specs.Refusal.{number_said};

use names::Layout;
use numbers::{GRANT_LIMIT, Refusal, SHEET_LIMIT};
use refusal::{has_bad_bytes, read_body};

// Whether an accepted sheet with a line added is accepted but for names that stand twice and too many users, and else
// the cause of the lowest number that applies.
pub fn judge_line(sheet: &[u8], layout: Layout, line: &[u8]) -> Result<(), Refusal>
    requires { LaidOut sheet.now layout }
    ensures { number_said result ≡ first_number (longer_causes sheet.now line.now) }
{
    if SHEET_LIMIT - sheet.len() < line.len() {
        return Err(Refusal::SheetTooLong);
    }
    if has_bad_bytes(line) {
        return Err(Refusal::BadBytes);
    }
    let body = read_body(line, 0, layout.permissions);
    if body.users != 1 {
        return Err(Refusal::BadBytes);
    }
    if !body.names {
        return Err(Refusal::NameLength);
    }
    if !body.even {
        return Err(Refusal::UnevenLine);
    }
    if !body.bits {
        return Err(Refusal::BadCell);
    }
    if GRANT_LIMIT < layout.grants + body.ones {
        return Err(Refusal::TooManyGrants);
    }
    Ok(())
}
