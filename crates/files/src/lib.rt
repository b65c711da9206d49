// Files, read whole into a lent buffer: by their names, or as the arguments of a program name them.

#![tactic(auto)]

ghost use Rattle.std.specs.Prelude.{IfSome};
ghost use Rattle.std.specs.Io.{ReadsAtMost};
ghost use Rattle.io.specs.Counts.{IsPrefixLen};

use std::env::{Env, FillError};
use std::fs::File;
use std::io::{Error, ErrorKind, Read, Result};
use std::rt::Files;
use std::str;

// The descriptor of standard error.
const STANDARD_ERROR: i32 = 2;

// The bytes of a path, at most.
const PATH_LIMIT: usize = 4_096;

// Reads until the buffer is full, the file ends or a read fails, and answers how many bytes it put at the front.
fn read_full<F: Read>(file: &mut F, buf: &mut [u8]) -> usize
    ensures { IsPrefixLen result buf.new }
{
    let mut done = 0;
    // A read says how many bytes it put, which may be fewer than there is room for.
    while done < buf.len() {
        let Ok(n) = file.read(&mut buf[done..]) else {
            break;
        };
        if n == 0 {
            break;
        }
        done += n;
    }
    done
}

// Reads the file of this name: an error where it cannot be opened, or where the first read fails.
fn try_read(rt: &impl Files, path: &[u8], buf: &mut [u8]) -> Result<usize>
    ensures { ReadsAtMost result buf.new }
{
    let Ok(name) = str::from_utf8(path) else {
        return Err(Error::from(ErrorKind::InvalidInput));
    };
    let mut file = File::open(rt, name)?;
    let first = file.read(buf)?;
    let rest = read_full(&mut file, &mut buf[first..]);
    Ok(first + rest)
}

// Writes a line to standard error: a path, and why it cannot be read.
fn fail(rt: &impl Eprint, path: &[u8], error: &Error) {
    io::write_all(STANDARD_ERROR, path);
    let _said = eprintln!(rt; ": {error}");
}

// Reads the file of this name to its end, or until the buffer is full, and answers how many of its bytes are at the front
// of the buffer; or nothing where it cannot be read, and standard error says why. A folder can be opened, and fails at
// the first read. What a file has is no value that the contract could name: it says the range of the count.
pub fn read_file<R: Files + Eprint>(rt: &R, path: &[u8], buf: &mut [u8]) -> Option<usize>
    ensures prefix_len { IfSome result (λ count. IsPrefixLen count buf.new) }
{
    match try_read(rt, path, buf) {
        Ok(count) => Some(count),
        Err(error) => {
            fail(rt, path, &error);
            None
        }
    }
}

// Whether there is an argument of this number. The program's own name is number 0.
pub fn is_given(rt: &impl Env, i: usize) -> bool {
    let mut first = [0u8; 1];
    !matches!(rt.arg(i, &mut first), Err(FillError::NotPresent))
}

// Reads the file that an argument names.
pub fn read_argument<R: Files + Env + Eprint>(rt: &R, i: usize, buf: &mut [u8]) -> Option<usize>
    ensures { IfSome result (λ count. IsPrefixLen count buf.new) }
{
    let mut path = [0u8; PATH_LIMIT];
    let length = rt.arg(i, &mut path).unwrap_or(0);
    read_file(rt, &path[..length], buf)
}
