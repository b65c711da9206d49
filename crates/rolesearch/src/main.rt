// The long search: searches the grant sheet on standard input again and again, 100,000,000 steps at a time, as many
// times as the first argument says (1 to 4,294,967,295; 3,600 where there is none or it is no number of that range) or
// until a search does not answer `open`. After each search it writes a line to standard error: steps so far, depth
// gained, roles, bound, state, steps a second. Then it prints the session's book, or the number of the refusal and a
// line feed. What it prints is `long_search_output` (spec, LongSearch), which `long_search` puts into a buffer; what is
// here only reads and writes.

#![tactic(auto)]

mod rounds;

use numbers::{BOOK_LIMIT, SHEET_LIMIT};
use rounds::long_search;
use std::env::Env;

// The descriptors of standard input and output.
const STANDARD_INPUT: i32 = 0;

const STANDARD_OUTPUT: i32 = 1;

// One byte more than a sheet has, by which a longer one is known.
const INPUT_LIMIT: usize = SHEET_LIMIT + 1;

// The system hands no program a longer argument.
const ARGUMENT_LIMIT: usize = 131_072;

fn main(rt: HostRuntime) {
    let mut input = [0u8; INPUT_LIMIT];
    let length = io::read_full(STANDARD_INPUT, &mut input);
    let mut argument = [0u8; ARGUMENT_LIMIT];
    let word = rt.arg(1, &mut argument).unwrap_or(0);
    let mut out = [0u8; BOOK_LIMIT];
    let count = long_search(&rt, &input[..length], &argument[..word], &mut out);
    io::write_all(STANDARD_OUTPUT, &out[..count]);
}
