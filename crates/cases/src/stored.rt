// The stored files of a case: NNN.KIND in the folder that the program is run in, NNN the case's number.
// NNN.case has the log's length (4 bytes) and what the case asks (1 byte, one bit for each question).
ghost use Rattle.io.specs.Counts.{IsPrefixLen};

use std::fmt::{InlineText, Write};
use std::fs::Files;

// What a case asks, as bits: the readers on its files.
pub(crate) const READING: u8 = 1;
// The condition of its recipe.
pub(crate) const ANALYSING: u8 = 2;
// The verdict on its sheet under the condition that comes with it.
pub(crate) const MADE_UP: u8 = 4;
// The verdict under the recipe's own.
pub(crate) const DERIVED: u8 = 8;
// The new form of its old recipe.
pub(crate) const CONVERTING: u8 = 16;
// The run.
pub(crate) const RUNNING: u8 = 32;
// The run's records as notes.
pub(crate) const NOTES: u8 = 64;
// That the run's limit is 0, whatever the choice file says.
pub(crate) const ZERO_LIMIT: u8 = 128;

// The most letters of a file's name: the case's number, a point, and its kind.
const NAME: usize = 16;

#[derive(Clone, Copy)]
pub(crate) struct Case {
    pub(crate) log: usize,
    pub(crate) asks: u8,
}

// The bytes of the case's file of a kind. A file that cannot be read is named on standard error, and
// counts as one of no bytes.
pub(crate) fn read(rt: &(impl Files + Eprint), i: usize, kind: &str, buffer: &mut [u8]) -> usize
    ensures { IsPrefixLen result buffer.new }
{
    let mut name = InlineText::<NAME>::new();
    let _ = write!(name, "{i:03}.{kind}");
    files::read_path(rt, name.as_str().as_bytes(), buffer).unwrap_or(0)
}

// What the case asks.
pub(crate) fn of_number(rt: &(impl Files + Eprint), i: usize) -> Case {
    let mut bytes = [0u8; 5];
    read(rt, i, "case", &mut bytes);
    Case {
        log: bytes_le::u32_at(&bytes, 0) as usize,
        asks: bytes[4],
    }
}
