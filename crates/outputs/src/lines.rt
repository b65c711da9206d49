// Lines of numbers, as the programs print them.
ghost use Rattle.std.specs.Prelude.{◌≤◌, length};
ghost use Rattle.spec.specs.Program.{number_line};
ghost use Rattle.text.specs.Written.{Written};
ghost use Rattle.outputs.specs.Lines.{pair_line};

// Writes a number and a line feed.
pub fn put_number_line(out: &mut [u8], number: usize) -> usize
    requires { length (number_line number) ≤ length out.old }
    ensures { Written (number_line number) out.old out.new result }
{
    let at = decimal::put_decimal(out, number);
    out[at] = b'\n';
    at + 1
}

// Writes two numbers with a comma between, and a line feed.
pub fn put_pair_line(out: &mut [u8], first: usize, second: usize) -> usize
    requires { length (pair_line first second) ≤ length out.old }
    ensures { Written (pair_line first second) out.old out.new result }
{
    let at = decimal::put_decimal(out, first);
    out[at] = b',';
    let from = at + 1;
    from + put_number_line(&mut out[from..], second)
}
