// Document 01's book program: prints the role book of the grant sheet on standard input, after a search whose budget
// is the first argument (0 where there is none or it is no number from 0 to 4,294,967,295), or the number of the
// refusal and a line feed. What it prints is `program_output` (spec, Program); what is here only reads and writes.

#![tactic(auto)]

use numbers::SHEET_LIMIT;
use outputs::PROGRAM_BUFFER;
use std::env::Env;

// The descriptors of standard input and output.
const STANDARD_INPUT: i32 = 0;

const STANDARD_OUTPUT: i32 = 1;

// One byte more than a sheet has, by which a longer one is known.
const INPUT_LIMIT: usize = SHEET_LIMIT + 1;

// The system hands no program a longer argument.
const ARGUMENT_LIMIT: usize = 131_072;

fn main(rt: HostRuntime) {
    let mut input = [0u8; INPUT_LIMIT];
    let length = io::read_full(STANDARD_INPUT, &mut input);
    let mut argument = [0u8; ARGUMENT_LIMIT];
    let word = rt.arg(1, &mut argument).unwrap_or(0);
    let mut out = [0u8; PROGRAM_BUFFER];
    let count = outputs::book_output(&input[..length], &argument[..word], &mut out);
    io::write_all(STANDARD_OUTPUT, &out[..count]);
}
