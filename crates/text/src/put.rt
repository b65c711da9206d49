// Bytes into a buffer.
ghost use Rattle.std.specs.Prelude.{◌≤◌, length};
ghost use Rattle.text.specs.Line.{behind_comma, line_end};
ghost use Rattle.text.specs.Written.{Written};

// Writes the bytes at the front of the buffer, and answers how many they are.
pub fn put_bytes(out: &mut [u8], bytes: &[u8]) -> usize
    requires { length bytes.now ≤ length out.old }
    ensures { Written bytes.now out.old out.new result }
{
    // Byte after byte: the library copies one lent slice into another by `memmove`, which the archive for C would need.
    for i in 0..bytes.len() {
        out[i] = bytes[i];
    }
    bytes.len()
}

// Writes a field behind a comma.
pub fn put_field(out: &mut [u8], field: &[u8]) -> usize
    requires { length (behind_comma field.now) ≤ length out.old }
    ensures { Written (behind_comma field.now) out.old out.new result }
{
    out[0] = b',';
    1 + put_bytes(&mut out[1..], field)
}

// Writes an empty line.
pub fn put_empty_line(out: &mut [u8]) -> usize
    requires { length line_end ≤ length out.old }
    ensures { Written line_end out.old out.new result }
{
    put_bytes(out, b"\n")
}
