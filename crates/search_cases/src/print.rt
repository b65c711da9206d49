// Writing to standard output.

// The descriptor of standard output.
const STANDARD_OUTPUT: i32 = 1;

pub fn text(s: &[u8]) {
    io::write_all(STANDARD_OUTPUT, s);
}

pub fn number(n: usize) {
    io::print_decimal(STANDARD_OUTPUT, n as u64);
}
