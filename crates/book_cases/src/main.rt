// Checks good and damaged books. A line of the output says what is checked, and the number, the roles and the witness
// lines that the checker answers. What it has to answer was worked out from document 01; the file `stdout` has it.
//
// The file `stdin` has the cases, in groups with a heading that starts with `#`. A case is a line of five fields with
// bars between them: what is checked; a part of the book or the sheet of document 01, and what stands in its place;
// another part, and what stands in its place. With an empty part nothing is replaced. A group of sheets and books of
// their own has in each case what is checked, the sheet, the book, and two empty fields. In a field a slash stands for
// a line feed, and a backslash for a carriage return.

#![tactic(auto)]

mod build;
mod fields;
mod show;
mod texts;

use fields::end_fields;
use show::{damaged_book, damaged_sheet, own_texts, show_cases, show_long, show_long_sheet};

// The descriptor of standard input.
const STANDARD_INPUT: i32 = 0;

// Room for the cases.
const SPACE: usize = 32_768;

fn main() {
    let mut space = [0u8; SPACE];
    let n = io::read_full(STANDARD_INPUT, &mut space);
    end_fields(&mut space);
    show_all(&space[..n]);
}

fn show_all(cases: &[u8]) {
    let own = show_cases(damaged_book, cases, 0);
    let sheets = show_cases(own_texts, cases, own);
    show_long_sheet(b"a sheet of 65537 bytes", 65_537);
    let others = show_cases(damaged_sheet, cases, sheets);
    let lines = show_cases(own_texts, cases, others);
    let counts = show_lines(cases, lines);
    let products = show_counts(cases, counts);
    show_long_counts();
    let witnesses = show_cases(damaged_book, cases, products);
    let twice = show_cases(damaged_book, cases, witnesses);
    let several = show_cases(own_texts, cases, twice);
    show_cases(damaged_book, cases, several);
}

// Damaged lines. Answers where the next group starts.
fn show_lines(cases: &[u8], at: usize) -> usize {
    let headings = show_cases(damaged_book, cases, at);
    let roles = show_cases(damaged_book, cases, headings);
    let more = show_cases(damaged_book, cases, roles);
    let users = show_cases(own_texts, cases, more);
    show_cases(damaged_book, cases, users)
}

// Damaged and wrong counts, and damaged witness lines. Answers where the next group starts.
fn show_counts(cases: &[u8], at: usize) -> usize {
    let witness = show_cases(damaged_book, cases, at);
    show_zeros(b"a book of 131073 bytes", b"2", 130_940, b",2,");
    let wrong = show_cases(damaged_book, cases, witness);
    let bounds = show_cases(damaged_book, cases, wrong);
    let long = show_cases(damaged_book, cases, bounds);
    show_cases(damaged_book, cases, long)
}

fn show_long_counts() {
    show_zeros(b"roles of 60000 digits", b"2", 59_999, b",2,");
    show_zeros(b"a bound of 60000 digits", b"2,2", 59_999, b",");
    show_zeros(b"a book of 65536 bytes", b"2", 65_403, b",2,");
    show_zeros(b"a book of 131072 bytes", b"2", 130_939, b",2,");
    show_long(b"71 witness lines", b"bo,map\n", b"", b"bo,map\n", 70, b"");
    show_long(
        b"135 witness lines",
        b"bo,map\n",
        b"",
        b"bo,map\n",
        134,
        b"",
    );
}

// The book of document 01 with zeros in its counts, behind one text and before another.
fn show_zeros<'a>(what: &'a [u8], head: &'a [u8], zeros: usize, tail: &'a [u8]) {
    show_long(what, b"2,2,", head, b"0", zeros, tail);
}
