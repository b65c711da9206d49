// Texts made in a lent buffer. Each function answers the place after what it put; what would stand past
// the buffer's end is dropped.
ghost use Rattle.std.specs.Prelude.{◌≤◌, length};

// One byte.
fn put_byte(out: &mut [u8], at: usize, b: u8) -> usize {
    if at < out.len() {
        out[at] = b;
        return at + 1;
    }
    at
}

// A word.
pub fn put(out: &mut [u8], at: usize, word: &[u8]) -> usize {
    let mut to = at;
    for &b in word {
        to = put_byte(out, to, b);
    }
    to
}

// A word as many times as asked.
pub fn put_times(out: &mut [u8], at: usize, word: &[u8], times: usize) -> usize {
    let mut to = at;
    for _ in 0..times {
        to = put(out, to, word);
    }
    to
}

// Where a part first stands in a text, or the text's end where it stands nowhere.
fn place_of<'a>(text: &'a [u8], part: &'a [u8]) -> usize
    ensures { result ≤ length text.now }
{
    let size = part.len();
    for at in 0..text.len() {
        if text.len() - at < size {
            return text.len();
        }
        let end = at + size;
        if text::same_bytes(&text[at..end], part) {
            return at;
        }
    }
    text.len()
}

// A text with another part in place of the first such one. Where the text has none, the answer is the buffer's length.
pub fn damaged<'a>(out: &mut [u8], text: &'a [u8], old: &'a [u8], new: &'a [u8]) -> usize {
    let at = place_of(text, old);
    if text.len() - at < old.len() {
        return out.len();
    }
    let behind = at + old.len();
    let front = put(out, 0, &text[..at]);
    let rest = put(out, front, new);
    put(out, rest, &text[behind..])
}
