// Sheets of any size, built in a lent buffer. What would stand past the buffer's end is dropped.
ghost use Rattle.std.specs.Prelude.{◌≤◌};

// A sheet of as many users and permissions as asked, whose first cells say yes, as many as there are to be grants.
// The names of its first users have a byte more, as many as there are to be longer names. Answers its length.
pub fn build(
    out: &mut [u8],
    users: usize,
    permissions: usize,
    grants: usize,
    longer: usize,
) -> usize {
    let mut at = put_head(out, permissions);
    let mut left = grants;
    for u in 0..users {
        at = put_longer(out, at, u < longer);
        let ones = least(left, permissions);
        at = put_user(out, at, u, permissions, ones);
        left -= ones;
    }
    at
}

// The lesser of two numbers.
fn least(a: usize, b: usize) -> usize
    ensures { result ≤ a }
{
    if a < b { a } else { b }
}

// The first line: `user`, then the permissions.
fn put_head(out: &mut [u8], permissions: usize) -> usize {
    let mut at = put_four(out, 0, *b"user");
    for p in 0..permissions {
        at = put(out, at, b',');
        at = put_name(out, at, b'p', p);
    }
    put(out, at, b'\n')
}

// The byte before a name that is to be longer.
fn put_longer(out: &mut [u8], at: usize, longer: bool) -> usize {
    if longer {
        return put(out, at, b'x');
    }
    at
}

// The line of user u, with as many cells as permissions, the first of them ones.
fn put_user(out: &mut [u8], at: usize, u: usize, permissions: usize, ones: usize) -> usize {
    let mut to = put_name(out, at, b'u', u);
    for p in 0..permissions {
        to = put(out, to, b',');
        to = put(out, to, if p < ones { b'1' } else { b'0' });
    }
    put(out, to, b'\n')
}

// A name of a letter and three digits.
fn put_name(out: &mut [u8], at: usize, letter: u8, n: usize) -> usize {
    put_four(out, at, [letter, digit(n / 100), digit(n / 10), digit(n)])
}

// The last decimal digit of n.
fn digit(n: usize) -> u8 {
    (n % 10) as u8 + b'0'
}

// Four bytes. Answers the place after them.
fn put_four(out: &mut [u8], at: usize, four: [u8; 4]) -> usize {
    let second = put(out, at, four[0]);
    let third = put(out, second, four[1]);
    let fourth = put(out, third, four[2]);
    put(out, fourth, four[3])
}

// One byte. Answers the place after it.
fn put(out: &mut [u8], at: usize, b: u8) -> usize {
    if at < out.len() {
        out[at] = b;
        return at + 1;
    }
    at
}
