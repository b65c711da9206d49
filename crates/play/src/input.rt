// Standard input, line by line.
ghost use Rattle.std.specs.Prelude.{IfSome};
ghost use Rattle.io.specs.Counts.{IsPrefixLen};

// The descriptor of standard input.
const STANDARD_INPUT: i32 = 0;

// The bytes of a line with its line feed, at most.
pub const LINE_LIMIT: usize = 8_192;

// The next byte, if there is one.
fn next_byte() -> Option<u8> {
    let mut one = [0u8; 1];
    if io::read_full(STANDARD_INPUT, &mut one) == 0 {
        return None;
    }
    Some(one[0])
}

// Passes over the rest of a line. A proved loop ends, and nothing says that a line does: no run counts all its turns.
fn skip_line() {
    for _ in 0..u64::MAX {
        match next_byte() {
            Some(b'\n') | None => return,
            Some(_) => (),
        }
    }
}

// Reads a line to the front of the buffer, and answers how many bytes it has without its line feed; or nothing where
// there is no line any more. A line that is too long has none. The last line may lack its line feed.
pub fn read_line(line: &mut [u8]) -> Option<usize>
    ensures { IfSome result (λ count. IsPrefixLen count line.new) }
{
    for count in 0..line.len() {
        let Some(b) = next_byte() else {
            return if count == 0 { None } else { Some(count) };
        };
        if b == b'\n' {
            return Some(count);
        }
        line[count] = b;
    }
    skip_line();
    Some(0)
}
