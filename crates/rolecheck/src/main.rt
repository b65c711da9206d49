// The checker as a program: `rolecheck SHEETFILE BOOKFILE` prints the book's roles and witness lines with a comma
// between, or the number of the refusal, and a line feed. What it prints is `check_output` (outputs, CheckOutput);
// what is here only reads and writes. Where a file cannot be read it prints nothing, and standard error says why.

#![tactic(auto)]

use files::{is_given, read_argument};
use numbers::{BOOK_LIMIT, SHEET_LIMIT};
use outputs::CHECK_BUFFER;
use std::env::Env;
use std::rt::Files;

// The descriptors of standard output and standard error.
const STANDARD_OUTPUT: i32 = 1;

const STANDARD_ERROR: i32 = 2;

// One byte more than a sheet and a book have, by which longer ones are known.
const SHEET_BUFFER: usize = SHEET_LIMIT + 1;

const BOOK_BUFFER: usize = BOOK_LIMIT + 1;

// Prints the answer for the two files.
fn print_answer<R: Files + Env + Eprint>(rt: &R) {
    let mut sheet = [0u8; SHEET_BUFFER];
    let first = read_argument(rt, 1, &mut sheet);
    let mut book = [0u8; BOOK_BUFFER];
    let second = read_argument(rt, 2, &mut book);
    let (Some(sheet_length), Some(book_length)) = (first, second) else {
        return;
    };
    let mut out = [0u8; CHECK_BUFFER];
    let count = outputs::check_output(&sheet[..sheet_length], &book[..book_length], &mut out);
    io::write_all(STANDARD_OUTPUT, &out[..count]);
}

fn main(rt: HostRuntime) {
    if is_given(&rt, 2) && !is_given(&rt, 3) {
        print_answer(&rt);
    } else {
        io::write_all(STANDARD_ERROR, b"use: rolecheck SHEETFILE BOOKFILE\n");
    }
}
