// The fields of cases. As they are read, a bar ends each field of a case but the last, which its line ends; from
// `end_fields` on a bar ends each.
ghost use Rattle.std.specs.Prelude.{◌≡◌, ◌+◌, ◌≤◌, min, length};

// Where the field that starts at this place ends: at the next bar, or where the cases end.
pub fn field_end(cases: &[u8], at: usize) -> usize
    requires { at ≤ length cases.now }
    ensures { (at ≤ result) × (result ≤ length cases.now) }
{
    for i in at..cases.len() {
        if cases[i] == b'|' {
            return i;
        }
    }
    cases.len()
}

// Where the field behind one that ends at this place starts.
pub fn field_behind(cases: &[u8], end: usize) -> usize
    ensures { result ≡ min (end + 1) (length cases.now) }
{
    if end < cases.len() {
        return end + 1;
    }
    cases.len()
}

// The byte that a byte of a case stands for.
fn meant(b: u8) -> u8 {
    match b {
        b'\n' => b'|',
        b'/' => b'\n',
        b'\\' => b'\r',
        _ => b,
    }
}

// Puts a bar behind the last field of each case too, and in place of what stands for another byte that byte.
pub fn end_fields(cases: &mut [u8]) {
    for b in cases.iter_mut() {
        *b = meant(*b);
    }
}
