// What the checker answers for a sheet and a book, on standard output.
ghost use Rattle.std.specs.Prelude.{◌≤◌, length};

use crate::build::{damaged, put, put_times};
use crate::fields::{field_behind, field_end};
use crate::texts::{BOOK, SHEET};

// The descriptor of standard output.
const STANDARD_OUTPUT: i32 = 1;

// Room for a book above the limit.
const SPACE: usize = 132_000;

// Room for the book or the sheet with one part replaced, before the other is.
const DAMAGED_SPACE: usize = 1024;

// Writes what is checked, and the number, the roles and the witness lines that are answered.
pub fn show<'a>(what: &'a [u8], sheet: &'a [u8], book: &'a [u8]) {
    let answer = checker::check(sheet, book);
    io::write_all(STANDARD_OUTPUT, what);
    figure(b": ", answer.number);
    figure(b" ", answer.roles);
    figure(b" ", answer.witness_lines);
    io::write_all(STANDARD_OUTPUT, b"\n");
}

// Writes a word and a number.
fn figure(word: &[u8], n: usize) {
    io::write_all(STANDARD_OUTPUT, word);
    io::print_decimal(STANDARD_OUTPUT, n as u64);
}

// The buffer was too short, or what was to be damaged is not there.
fn unmade(what: &[u8]) {
    io::write_all(STANDARD_OUTPUT, what);
    io::write_all(STANDARD_OUTPUT, b": not made\n");
}

// Checks the book at the front of a buffer, and says so where none was made.
fn show_book<'a>(what: &'a [u8], sheet: &'a [u8], space: &'a [u8], n: usize) {
    if n < space.len() {
        show(what, sheet, &space[..n]);
    } else {
        unmade(what);
    }
}

// Checks the book of document 01 against the sheet at the front of a buffer.
fn show_sheet<'a>(what: &'a [u8], space: &'a [u8], n: usize) {
    if n < space.len() {
        show(what, &space[..n], &BOOK);
    } else {
        unmade(what);
    }
}

// The text with two parts replaced, at the front of the buffer; or the buffer's length where none was made.
fn damaged_twice<'a>(
    out: &mut [u8],
    text: &'a [u8],
    old: &'a [u8],
    new: &'a [u8],
    other: &'a [u8],
    with: &'a [u8],
) -> usize {
    let mut space = [0u8; DAMAGED_SPACE];
    let n = damaged(&mut space, text, old, new);
    if n < space.len() {
        return damaged(out, &space[..n], other, with);
    }
    out.len()
}

// A case of a damaged book: checks the book of document 01 with two parts replaced, against its sheet.
pub fn damaged_book(what: &[u8], old: &[u8], new: &[u8], other: &[u8], with: &[u8]) {
    let mut space = [0u8; SPACE];
    let n = damaged_twice(&mut space, &BOOK, old, new, other, with);
    show_book(what, &SHEET, &space, n);
}

// A case of a damaged sheet: checks the book of document 01 against its sheet with two parts replaced.
pub fn damaged_sheet(what: &[u8], old: &[u8], new: &[u8], other: &[u8], with: &[u8]) {
    let mut space = [0u8; SPACE];
    let n = damaged_twice(&mut space, &SHEET, old, new, other, with);
    show_sheet(what, &space, n);
}

// A case with a sheet and a book of its own.
pub fn own_texts(what: &[u8], sheet: &[u8], book: &[u8], _other: &[u8], _with: &[u8]) {
    show(what, sheet, book);
}

// Checks the fields of the case that starts at this place. Answers where the next one starts.
fn show_case<F: Fn(&[u8], &[u8], &[u8], &[u8], &[u8])>(check: &F, cases: &[u8], at: usize) -> usize
    requires at_within { at ≤ length cases.now }
    requires callable { F.IsAlwaysCallable check.now }
{
    let what = field_end(cases, at);
    let old = field_behind(cases, what);
    let old_end = field_end(cases, old);
    let new = field_behind(cases, old_end);
    let new_end = field_end(cases, new);
    let other = field_behind(cases, new_end);
    let other_end = field_end(cases, other);
    let with = field_behind(cases, other_end);
    let with_end = field_end(cases, with);
    check(
        &cases[at..what],
        &cases[old..old_end],
        &cases[new..new_end],
        &cases[other..other_end],
        &cases[with..with_end],
    );
    field_behind(cases, with_end)
}

// Checks the fields of each case of the group whose heading starts at this place, as long as one starts behind the
// other. Answers where the next group starts.
pub fn show_cases<F: Fn(&[u8], &[u8], &[u8], &[u8], &[u8])>(
    check: F,
    cases: &[u8],
    heading: usize,
) -> usize
    requires { F.IsAlwaysCallable check }
{
    if cases.len() <= heading {
        return heading;
    }
    let mut at = field_behind(cases, field_end(cases, heading));
    // A case says where the next one starts.
    while at < cases.len() {
        if cases[at] == b'#' {
            return at;
        }
        let next = show_case(&check, cases, at);
        if next <= at {
            return at;
        }
        at = next;
    }
    at
}

// Checks the book of document 01 with one part replaced by a word that stands many times between two others.
pub fn show_long<'a>(
    what: &'a [u8],
    old: &'a [u8],
    head: &'a [u8],
    word: &'a [u8],
    times: usize,
    tail: &'a [u8],
) {
    let mut space = [0u8; SPACE];
    let words = put(&mut space, 0, head);
    let end = put_times(&mut space, words, word, times);
    let n = put(&mut space, end, tail);
    if n < space.len() {
        let mut book = [0u8; SPACE];
        let size = damaged(&mut book, &BOOK, old, &space[..n]);
        show_book(what, &SHEET, &book, size);
    } else {
        unmade(what);
    }
}

// Checks it against a sheet of as many bytes as asked, which are all one letter.
pub fn show_long_sheet(what: &[u8], n: usize) {
    let mut space = [0u8; SPACE];
    let end = put_times(&mut space, 0, b"a", n);
    show_sheet(what, &space, end);
}
