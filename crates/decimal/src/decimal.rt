// Counts in decimal.
ghost use Rattle.std.specs.Prelude.{◌≡◌, ◌++◌, ◌≤◌, ◌<◌, length};
ghost use Rattle.spec.specs.Decimal.{digit, decimal};
ghost use Rattle.decimal.specs.WordDigits.{word_digits};
ghost use Rattle.decimal.specs.Measured.{Measured};
ghost use Rattle.text.specs.Written.{Written};

use text::put_bytes;

// How many digits n has.
pub fn decimal_length(n: usize) -> usize
    ensures { Measured (decimal n) word_digits result }
{
    if n < 10 {
        return 1;
    }
    decimal_length(n / 10) + 1
}

// The digit of d, which is below ten.
fn digit_of(d: usize) -> u8
    requires { d < 10 }
    ensures { result ≡ digit d }
{
    b'0' + d as u8
}

// Writes n without leading zeros.
pub fn put_decimal(out: &mut [u8], n: usize) -> usize
    requires { length (decimal n) ≤ length out.old }
    ensures { Written (decimal n) out.old out.new result }
{
    if n < 10 {
        out[0] = digit_of(n);
        return 1;
    }
    let at = put_decimal(out, n / 10);
    out[at] = digit_of(n % 10);
    at + 1
}

// Writes some bytes, and n behind them.
pub fn put_counted(out: &mut [u8], mark: &[u8], n: usize) -> usize
    requires { length (mark.now ++ decimal n) ≤ length out.old }
    ensures { Written (mark.now ++ decimal n) out.old out.new result }
{
    let at = put_bytes(out, mark);
    at + put_decimal(&mut out[at..], n)
}
