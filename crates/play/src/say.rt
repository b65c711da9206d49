// Answers on standard output. What a line has is said where it is built, in `answer_lines`; what is here only writes it.
use answer_lines::{ANSWER_BUFFER, Answer, put_answer};

// The descriptor of standard output.
const STANDARD_OUTPUT: i32 = 1;

pub fn say(answer: Answer) {
    let mut out = [0u8; ANSWER_BUFFER];
    let count = put_answer(&mut out, answer);
    io::write_all(STANDARD_OUTPUT, &out[..count]);
}
