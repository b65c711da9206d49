// Digits of any length, read up to a cap.
ghost use Rattle.std.specs.Prelude.{◌≡◌, ◌+◌, ◌-◌, ◌*◌, ◌≤◌};
ghost use Rattle.digits.specs.Capped.{cap_most, up_to, digits_read, count_read};

use numbers::COUNT_CAP;

// The number n with a digit behind it, no greater than the cap.
fn with_digit(n: usize, digit: u8, cap: usize) -> usize
    requires { (n ≤ cap) × (cap ≤ cap_most) × (48 ≤ digit) }
    ensures { result ≡ up_to cap (10 * n + (digit - 48)) }
{
    let m = 10 * n + (digit - b'0') as usize;
    if m < cap { m } else { cap }
}

// What digits say: the number, or the cap where that is greater, and None where other bytes stand among them. No digits
// say 0.
pub fn digits_of(field: &[u8], cap: usize) -> Option<usize>
    requires { cap ≤ cap_most }
    ensures { result ≡ digits_read cap 0 field.now }
{
    let mut n = 0;
    for b in field {
        if !b.is_ascii_digit() {
            return None;
        }
        n = with_digit(n, *b, cap);
    }
    Some(n)
}

// What a count says, no greater than COUNT_CAP: digits without leading zeros.
pub fn count_of(field: &[u8]) -> Option<usize>
    ensures { result ≡ count_read field.now }
{
    if field.len() == 0 {
        return None;
    }
    if field[0] != b'0' {
        return digits_of(field, COUNT_CAP);
    }
    if field.len() == 1 {
        return Some(0);
    }
    None
}
