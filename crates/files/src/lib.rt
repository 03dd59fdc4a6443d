// What the programs share: the files that a program's arguments name, the limit and the choices of a
// choice file, and the lines that are printed. Where a file cannot be opened, read or written, a line
// on standard error names it by its path, as the argument has it. A path that is not UTF-8 cannot be opened,
// and the line says that in the path's place.
//
// A file is read into a buffer one byte longer than any of its form. Of a longer file the library is
// given the bytes that fill the buffer, which it refuses as it would the whole.
#![tactic(auto)]

pub mod answers;
pub mod choice_file;

ghost use Rattle.std.specs.Prelude.{◌≡◌, min, length};
ghost use Rattle.io.specs.Counts.{IsPrefixLen};
ghost use Rattle.files.specs.Answers.{Filled, FilledAll, Whole};

use std::env::{Env, FillError};
use std::fmt::InlineText;
use std::fs::Files;
use std::io::{Error, ErrorKind, Read, Write};
use std::{fs, io, str};

// A recipe: its table, 32 fields of 2 bytes, 64 variables, 16 trays of 4 bytes, 1,024 statements of 8.
const LONGEST_RECIPE: usize = 32 + 32 * 2 + 64 + 16 * 4 + 1024 * 8;
// A condition: its counts, 32 fields of 2 bytes, 64 conjuncts with their pairs, of 120 nodes of 8 bytes each.
const LONGEST_CONDITION: usize = 8 + 32 * 2 + 64 * (8 + 120 * 8);
// A sheet: 32 fields with their pairs, of 128 readings of 8 bytes each.
const LONGEST_SHEET: usize = 32 * (8 + 128 * 8);
// A choice file as the programs take it; the form has no limit.
const LONGEST_CHOICES: usize = 524288;

// The buffers.
pub const RECIPE: usize = LONGEST_RECIPE + 1;

pub const CONDITION: usize = LONGEST_CONDITION + 1;

pub const SHEET: usize = LONGEST_SHEET + 1;

pub const CHOICES: usize = LONGEST_CHOICES + 1;

// The log: its records, and a record's bytes.
pub const RECORDS: usize = 43690;

pub const RECORD: usize = 12;

pub const LOG: usize = RECORDS * RECORD;

// The longest argument that is taken for a path; the system's longest paths are one byte shorter.
const PATH: usize = 4096;
// The bytes of what the system says of an error.
const MESSAGE: usize = 128;

const NO_FILE: &str = "an argument names no file";

// A number of the buffer's bytes: n, or all of them.
pub fn at_most(n: usize, buffer: &[u8]) -> usize
    ensures { IsPrefixLen result buffer.now × (result ≡ min n (length buffer.now)) }
{
    n.min(buffer.len())
}

// A buffer of zeros. Of a buffer that a function answers, a proof knows the length alone; a long one that is
// written out would be counted byte by byte.
pub fn zeros<const N: usize>() -> [u8; N]
    ensures { length result ≡ N }
{
    [0; N]
}

// The functions below answer how many bytes were read or written, or None where that could not be, which has
// then been said.

// A line on standard error, which may be lost.
fn note(rt: &impl Eprint, what: &str, path: &str, why: &str) {
    let _ = eprintln!(rt; "{what}{path}: {why}");
}

// One line: what cannot be done, the file's path, and why, as the system says it.
fn complain(rt: &impl Eprint, what: &str, path: &[u8], why: &Error) {
    let text = InlineText::<MESSAGE>::of(why);
    note(rt, what, shown(path), without_code(text.as_str()));
}

// What was done, or the line that it could not be.
fn or_complain<T: Drop>(
    rt: &impl Eprint,
    what: &str,
    path: &[u8],
    done: io::Result<T>,
) -> Option<T> {
    match done {
        Ok(value) => Some(value),
        Err(why) => {
            complain(rt, what, path, &why);
            None
        }
    }
}

// A path as text.
fn shown(path: &[u8]) -> &str {
    str::from_utf8(path).unwrap_or("a path that is not UTF-8")
}

// The system's words without the number that std writes behind them.
fn without_code(text: &str) -> &str {
    match text.split_once(" (os error ") {
        Some((words, _)) => words,
        None => text,
    }
}

// Reads until the buffer is full, the file ends or a read fails: how many bytes were put at its start.
pub fn read_full(file: &mut impl Read, buffer: &mut [u8]) -> usize
    ensures { IsPrefixLen result buffer.new }
{
    let mut done = 0;
    // A while: the place moves by the length that is read.
    while done < buffer.len() {
        let n = file.read(&mut buffer[done..]).unwrap_or(0);
        if n == 0 {
            break;
        }
        done += n;
    }
    done
}

// Why a read that filled less than its buffer ended, if not at the file's end, as it does for a folder: then
// the next read fails.
fn fault(file: &mut impl Read, is_full: bool) -> Option<Error> {
    if is_full {
        return None;
    }
    let mut next = [0u8; 1];
    file.read(&mut next).err()
}

fn read_open(
    rt: &impl Eprint,
    file: &mut impl Read,
    path: &[u8],
    buffer: &mut [u8],
) -> Option<usize>
    ensures { Filled result buffer.new }
{
    let n = read_full(file, buffer);
    if let Some(why) = fault(file, n == buffer.len()) {
        complain(rt, "cannot read ", path, &why);
        return None;
    }
    Some(n)
}

// A path as std takes it, which is UTF-8.
fn text(path: &[u8]) -> io::Result<&str> {
    str::from_utf8(path).map_err(|_| Error::new(ErrorKind::InvalidInput, "the path is not UTF-8"))
}

fn open_read<R: Files>(rt: &R, path: &[u8]) -> io::Result<R::File> {
    fs::open(rt, text(path)?)
}

// The file is made, or emptied where it is there.
fn open_overwrite<R: Files>(rt: &R, path: &[u8]) -> io::Result<R::File> {
    fs::create(rt, text(path)?)
}

// The bytes of the file at a path, as many as the buffer has room for.
pub fn read_path(rt: &(impl Files + Eprint), path: &[u8], buffer: &mut [u8]) -> Option<usize>
    ensures { Filled result buffer.new }
{
    let mut file = or_complain(rt, "cannot open ", path, open_read(rt, path))?;
    read_open(rt, &mut file, path, buffer)
}

// A line for an argument that is missing, or longer than any path.
fn complain_of_argument(rt: &impl Eprint, why: FillError) {
    match why {
        FillError::NotPresent => note(rt, NO_FILE, "", "Invalid argument"),
        FillError::TooLong => note(rt, NO_FILE, "", "File name too long"),
    }
}

// The i-th argument, as a path's bytes.
fn argument(rt: &(impl Env + Eprint), i: usize, path: &mut [u8]) -> Option<usize>
    ensures { Filled result path.new }
{
    match rt.arg(i, path) {
        Ok(n) => Some(n),
        Err(why) => {
            complain_of_argument(rt, why);
            None
        }
    }
}

// The bytes of the file that the i-th argument names, as many as the buffer has room for.
pub fn read(rt: &(impl Env + Files + Eprint), i: usize, buffer: &mut [u8]) -> Option<usize>
    ensures { Filled result buffer.new }
{
    let mut path = [0u8; PATH];
    let n = argument(rt, i, &mut path)?;
    read_path(rt, &path[..n], buffer)
}

// The files of a run: how many bytes of each were read.
#[derive(Clone, Copy, Debug, PartialEq, Eq)]
pub struct RunFiles {
    pub recipe: usize,
    pub sheet: usize,
    pub choices: usize,
}

// The files that the first three arguments of a run name.
pub fn read_run(
    rt: &(impl Env + Files + Eprint),
    recipe: &mut [u8],
    sheet: &mut [u8],
    choices: &mut [u8],
) -> Option<RunFiles>
    ensures { FilledAll result recipe.new sheet.new choices.new }
{
    let files = RunFiles {
        recipe: read(rt, 1, recipe)?,
        sheet: read(rt, 2, sheet)?,
        choices: read(rt, 3, choices)?,
    };
    if LONGEST_CHOICES < files.choices {
        let _ = eprintln!(rt; "CHOICES has more than 524288 bytes");
        return None;
    }
    Some(files)
}

// Whether there is an i-th argument, be it empty.
fn is_argument(rt: &impl Env, i: usize) -> bool {
    match rt.arg(i, &mut []) {
        Ok(_) => true,
        Err(FillError::TooLong) => true,
        Err(FillError::NotPresent) => false,
    }
}

fn is_arguments(rt: &impl Env, n: usize) -> bool {
    (0..n).all(|i| is_argument(rt, i)) && !is_argument(rt, n)
}

// Whether a program has n arguments, its own name among them; else its use is said.
pub fn has_arguments(rt: &(impl Env + Eprint), n: usize, usage: &[u8]) -> bool {
    if is_arguments(rt, n) {
        return true;
    }
    let _ = rt.eprint(shown(usage));
    false
}

fn write_path(rt: &(impl Files + Eprint), path: &[u8], bytes: &[u8]) -> Option<usize>
    ensures { Whole result bytes.now }
{
    let mut file = or_complain(rt, "cannot open ", path, open_overwrite(rt, path))?;
    or_complain(rt, "cannot write ", path, file.write_all(bytes))?;
    Some(bytes.len())
}

// The bytes to the file that the i-th argument names, in the place of what it had.
pub fn write(rt: &(impl Env + Files + Eprint), i: usize, bytes: &[u8]) -> Option<usize>
    ensures { Whole result bytes.now }
{
    let mut path = [0u8; PATH];
    let n = argument(rt, i, &mut path)?;
    write_path(rt, &path[..n], bytes)
}
