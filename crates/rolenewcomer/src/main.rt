// A newcomer in an existing book as a program: `rolenewcomer SHEETFILE BOOKFILE LINEFILE` prints the book of the sheet
// with the line added, or the number of the refusal and a line feed. For `-` the line is read from standard input. What
// it prints is `newcomer_output` (outputs, NewcomerOutput); what is here only reads and writes. Where a file cannot be
// read it prints nothing, and standard error says why.

#![tactic(auto)]

ghost use Rattle.std.specs.Prelude.{IfSome};
ghost use Rattle.io.specs.Counts.{IsPrefixLen};

use files::{is_given, read_argument};
use numbers::{BOOK_LIMIT, SHEET_LIMIT};
use std::env::Env;
use std::rt::Files;

// The descriptors of standard input, standard output and standard error.
const STANDARD_INPUT: i32 = 0;

const STANDARD_OUTPUT: i32 = 1;

const STANDARD_ERROR: i32 = 2;

// One byte more than a sheet and a book have, by which longer ones are known. A line that is as long as the sheet's
// buffer is too long for every sheet.
const SHEET_BUFFER: usize = SHEET_LIMIT + 1;

const BOOK_BUFFER: usize = BOOK_LIMIT + 1;

// Whether an argument is `-`.
fn is_dash(rt: &impl Env, i: usize) -> bool {
    let mut word = [0u8; 2];
    let length = rt.arg(i, &mut word).unwrap_or(0);
    length == 1 && word[0] == b'-'
}

// Reads the line: the file that the last argument names, or standard input.
fn read_line<R: Files + Env + Eprint>(rt: &R, buf: &mut [u8]) -> Option<usize>
    ensures { IfSome result (λ count. IsPrefixLen count buf.new) }
{
    if is_dash(rt, 3) {
        return Some(io::read_full(STANDARD_INPUT, buf));
    }
    read_argument(rt, 3, buf)
}

// Prints the answer for the two files and the line.
fn print_answer<R: Files + Env + Eprint>(rt: &R) {
    let mut sheet = [0u8; SHEET_BUFFER];
    let first = read_argument(rt, 1, &mut sheet);
    let mut book = [0u8; BOOK_BUFFER];
    let second = read_argument(rt, 2, &mut book);
    let mut line = [0u8; SHEET_BUFFER];
    let third = read_line(rt, &mut line);
    let (Some(sheet_length), Some(book_length), Some(line_length)) = (first, second, third) else {
        return;
    };
    let mut out = [0u8; BOOK_LIMIT];
    let count = outputs::newcomer_output(
        &sheet[..sheet_length],
        &book[..book_length],
        &line[..line_length],
        &mut out,
    );
    io::write_all(STANDARD_OUTPUT, &out[..count]);
}

fn main(rt: HostRuntime) {
    if is_given(&rt, 3) && !is_given(&rt, 4) {
        print_answer(&rt);
    } else {
        io::write_all(
            STANDARD_ERROR,
            b"use: rolenewcomer SHEETFILE BOOKFILE LINEFILE, - for standard input\n",
        );
    }
}
