// What the judgement answers for a sheet, on standard output.
ghost use Rattle.std.specs.Prelude.{◌<◌, ◌≤◌, length};

use crate::build::build;
use numbers::{CELL_WORDS, SHEET_LIMIT};
use sheet::SheetRead;

// The descriptor of standard output.
const STANDARD_OUTPUT: i32 = 1;

// Room for a sheet above the limit.
const SPACE: usize = SHEET_LIMIT + 1;

// Judges a sheet of as many users, permissions and grants as asked.
pub fn show_built(label: &[u8], users: usize, permissions: usize, grants: usize) {
    show_longer(label, users, permissions, grants, 0);
}

// Judges such a sheet in which as many names of users as asked are a byte longer.
pub fn show_longer(label: &[u8], users: usize, permissions: usize, grants: usize, longer: usize) {
    let mut space = [0u8; SPACE];
    let n = build(&mut space, users, permissions, grants, longer);
    if n <= space.len() {
        show(label, &space[..n]);
    }
}

// Judges each sheet of a table: what it is and the sheet, both ended by a semicolon.
pub fn show_each(table: &[u8]) {
    let mut at = 0;
    // Where a sheet ends says where the next one starts.
    while at < table.len() {
        let sheet = next_part(table, at);
        if sheet == table.len() {
            return;
        }
        let next = next_part(table, sheet);
        show(&table[at..sheet - 1], &table[sheet..next - 1]);
        at = next;
    }
}

// The place behind the next semicolon, or the end.
fn next_part(table: &[u8], at: usize) -> usize
    requires { at < length table.now }
    ensures { (at < result) × (result ≤ length table.now) }
{
    for i in at..table.len() {
        if table[i] == b';' {
            return i + 1;
        }
    }
    table.len()
}

// Writes what a sheet is, the number that is answered for it, and its counts where it is accepted.
pub fn show<'a>(label: &'a [u8], s: &'a [u8]) {
    io::write_all(STANDARD_OUTPUT, label);
    match sheet::read(s) {
        Ok(read) => {
            figure(b": ", 0);
            counts(read);
        }
        Err(refusal) => figure(b": ", refusal.number()),
    }
    io::write_all(STANDARD_OUTPUT, b"\n");
}

// Writes the counts of an accepted sheet, and how many bits its rows have.
fn counts(read: SheetRead) {
    figure(b", users ", read.layout.users);
    figure(b", permissions ", read.layout.permissions);
    figure(b", grants ", read.layout.grants);
    let rows = read.rows;
    figure(b", cells ", set_bits(&rows));
}

// How many bits the words have in all.
fn set_bits(words: &[u64; CELL_WORDS]) -> usize {
    let mut total: usize = 0;
    for i in 0..CELL_WORDS {
        total += bits::count(words[i]);
    }
    total
}

// Writes a word and a number.
fn figure(word: &[u8], n: usize) {
    io::write_all(STANDARD_OUTPUT, word);
    io::print_decimal(STANDARD_OUTPUT, n as u64);
}
