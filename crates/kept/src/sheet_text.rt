// The bytes of a sheet, kept by a session.
ghost use Rattle.std.specs.Prelude.{◌≡◌, ◌≤◌, length, take};
ghost use Rattle.spec.specs.Limits.{sheet_limit};
ghost use Rattle.cells.specs.Blank.{BlankFrom};

use numbers::SHEET_LIMIT;

// A copy of a sheet's bytes, at the front, and 0 behind them.
#[tactic(auto, unfolding(spec::specs::Limits::sheet_limit))]
pub fn copied(s: &[u8]) -> [u8; SHEET_LIMIT]
    requires { length s.now ≤ sheet_limit }
    ensures result_value { take (length s.now) result ≡ s.now }
    ensures blank_from { BlankFrom (length s.now) result }
{
    let mut text = [0; SHEET_LIMIT];
    text[..s.len()].copy_from_slice(s);
    text
}
