// A line that answers: a first word, numbers behind it, and a last word where there is one.
ghost use Rattle.std.specs.Prelude.{[], ◌∷◌, ◌++◌, map, ◌+◌, ◌*◌, ◌≤◌, length};
ghost use Rattle.spec.specs.Decimal.{decimal};
ghost use Rattle.text.specs.Written.{Written};
ghost use Rattle.answer_lines.specs.Answers.{number_most, numbers_text, last_text, last_words, answer_line};
ghost use Rattle.answer_lines.specs.Answers.{digest_digits, digest_word};

// The digits of a digest.
const DIGEST_DIGITS: usize = 8;

// Writes numbers, each behind a blank.
fn put_numbers(out: &mut [u8], numbers: &[usize]) -> usize
    requires { length (numbers_text numbers.now) ≤ length out.old }
    ensures { Written (numbers_text numbers.now) out.old out.new result }
{
    let mut at = 0;
    for &number in numbers {
        at += decimal::put_counted(&mut out[at..], b" ", number);
    }
    at
}

// Writes the last word behind a blank, or nothing where it is empty, and ends the line.
fn put_last(out: &mut [u8], last: &[u8]) -> usize
    requires { length (last_text last.now) ≤ length out.old }
    ensures { Written (last_text last.now) out.old out.new result }
{
    if last.len() == 0 {
        return text::put_empty_line(out);
    }
    let at = text::put_bytes(out, b" ");
    let end = at + text::put_bytes(&mut out[at..], last);
    out[end] = b'\n';
    end + 1
}

// Writes an answer. An empty last word is none.
pub fn put_line<'a>(out: &mut [u8], word: &'a [u8], numbers: &'a [usize], last: &'a [u8]) -> usize
    requires { length word.now + length numbers.now * number_most + length last.now + 2
        ≤ length out.old }
    ensures { Written (answer_line (word.now ∷ map decimal numbers.now
        ++ last_words last.now)) out.old out.new result }
{
    let at = text::put_bytes(out, word);
    let end = at + put_numbers(&mut out[at..], numbers);
    end + put_last(&mut out[end..], last)
}

// Writes an answer whose last word is a digest, from the number that it spells.
pub fn put_digest_line<'a>(out: &mut [u8], word: &'a [u8], numbers: &'a [usize], sum: u32) -> usize
    requires { length word.now + length numbers.now * number_most + digest_digits + 2 ≤ length out.old }
    ensures { Written (answer_line (word.now ∷ map decimal numbers.now
        ++ digest_word sum ∷ [])) out.old out.new result }
{
    let mut text = [0u8; 16];
    let count = io::hex(sum as u64, DIGEST_DIGITS, &mut text);
    put_line(out, word, numbers, &text[..count])
}
