// The section table and the tables of types: checks 2 to 4 of a program file.
ghost use Rattle.std.specs.Prelude.{◌≡◌, ◌+◌, ◌*◌, ◌≤◌, ◌<◌, eqb, length};
ghost use Rattle.std.specs.List.{list_all};
ghost use Rattle.model.specs.Sizes.{section_table, pair_size_lem, array_size};
ghost use Rattle.model.specs.Refusals.{ok, check, wrong_sections};
ghost use Rattle.model.specs.Bytes.{u32_at, pair_at, part, entries};
ghost use Rattle.model.specs.Lists.{every};
ghost use Rattle.model.specs.Program.{array_at, layout_of, sections_in, sections_right, counts_right_lem, type_right, array_right_lem, types_right_lem};
ghost use Rattle.model.specs.OldForm.{most_old, old_field_size};
ghost use Rattle.program.specs.Reading.{layout_answer, PairIs, section_of, InFourBytes, whole_entries, tables_of};

use super::{ARRAY_SIZE, FIELD_SIZE, Layout, MOST_STATEMENTS, Program, STATEMENT_SIZE};
use refusals::Refusal;

const SECTIONS: usize = 4;

// the bytes of a pair of the section table, and of the whole table
const PAIR_SIZE: usize = 8;

const SECTION_TABLE: usize = 32;

// where the pair of each section stands
const FIELDS_PAIR: usize = 0;

const VARIABLES_PAIR: usize = 8;

const ARRAYS_PAIR: usize = 16;

const STATEMENTS_PAIR: usize = 24;

// the bytes of the longest program
const MOST_PROGRAM: usize = 8416;

// the bytes of the longest program of the old form, and of a field's entry in it
const MOST_OLD: usize = 8384;

const OLD_FIELD_SIZE: usize = 1;

const MOST_FIELDS: usize = 32;

const MOST_VARIABLES: usize = 64;

const MOST_ARRAYS: usize = 16;

// the cells of the longest array
const MOST_CELLS: u64 = 256;

// how many type codes there are
const TYPE_CODES: u8 = 8;

// A pair of the section table: where a section is, and how long.
#[derive(Clone, Copy)]
struct Pair {
    at: usize,
    len: usize,
}

// ---- check 2

// The pair at a place.
fn pair_at(program: &[u8], place: usize) -> Pair
    requires { place + pair_size_lem ≤ length program.now }
    ensures { PairIs result program.now place }
{
    let at = bytes_le::u32_at(program, place) as usize;
    let len = bytes_le::u32_at(program, place + 4) as usize;
    Pair { at, len }
}

// The section whose pair stands at a place, if it starts where the one before ends.
fn section_at(program: &[u8], place: usize, start: usize) -> Result<Pair, Refusal>
    requires { place + pair_size_lem ≤ length program.now }
    ensures { (section_of result ≡ check (eqb (u32_at program.now place) start) wrong_sections (ok (pair_at program.now place)))
        × InFourBytes result }
{
    let pair = pair_at(program, place);
    if pair.at != start {
        return Err(Refusal::WrongSections);
    }
    Ok(pair)
}

// The layout that the section table gives, if the sections are whole entries, a field's of this size.
fn read_layout(program: &[u8], entry: usize) -> Result<Layout, Refusal>
    requires { (section_table ≤ length program.now) × (0 < entry) }
    ensures { layout_answer result ≡ check (whole_entries entry program.now) wrong_sections (ok (layout_of program.now)) }
{
    let fields = pair_at(program, FIELDS_PAIR);
    let variables = pair_at(program, VARIABLES_PAIR);
    let arrays = pair_at(program, ARRAYS_PAIR);
    let statements = pair_at(program, STATEMENTS_PAIR);
    if fields.len % entry != 0
        || arrays.len % ARRAY_SIZE != 0
        || statements.len % STATEMENT_SIZE != 0
    {
        return Err(Refusal::WrongSections);
    }
    Ok(Layout {
        fields_at: fields.at,
        fields: fields.len / FIELD_SIZE,
        variables_at: variables.at,
        variables: variables.len,
        arrays_at: arrays.at,
        arrays: arrays.len / ARRAY_SIZE,
        statements_at: statements.at,
        statements: statements.len / STATEMENT_SIZE,
    })
}

// The section table of a file of at most so many bytes: each section starts where the one before ends, and the last ends the file.
fn read_table(program: &[u8], most: usize, entry: usize) -> Result<Layout, Refusal>
    requires { 0 < entry }
    ensures { layout_answer result ≡ check (sections_in most entry program.now) wrong_sections (ok (layout_of program.now)) }
{
    if program.len() < SECTION_TABLE || most < program.len() {
        return Err(Refusal::WrongSections);
    }
    let mut end = SECTION_TABLE;
    for i in 0..SECTIONS {
        // let .. else, and no ?: the form that document 01 names for a reader's entry (docs/DECISIONS.md).
        let Ok(pair) = section_at(program, PAIR_SIZE * i, end) else {
            return Err(Refusal::WrongSections);
        };
        end = pair.at + pair.len;
    }
    if end != program.len() {
        return Err(Refusal::WrongSections);
    }
    read_layout(program, entry)
}

// The section table of a program.
pub fn read_sections(program: &[u8]) -> Result<Layout, Refusal>
    ensures { layout_answer result ≡ check (sections_right program.now) wrong_sections (ok (layout_of program.now)) }
{
    read_table(program, MOST_PROGRAM, FIELD_SIZE)
}

// Whether the section table of a program of the old form is right.
pub fn old_sections_right(program: &[u8]) -> bool
    ensures { result ≡ sections_in most_old old_field_size program.now }
{
    read_table(program, MOST_OLD, OLD_FIELD_SIZE).is_ok()
}

// ---- check 3

#[tactic(auto, unfolding(model::specs::Program::counts_right_lem))]
pub fn counts_right(program: &Program) -> bool
    ensures { result ≡ counts_right_lem (tables_of program.now) }
{
    program.field_count() <= MOST_FIELDS
        && program.variables() <= MOST_VARIABLES
        && program.arrays() <= MOST_ARRAYS
        && program.statements() <= MOST_STATEMENTS
}

// ---- check 4

// Whether n bytes from a place on are all type codes.
fn are_types(program: &[u8], at: usize, n: usize) -> bool
    requires { at + n ≤ length program.now }
    ensures { result ≡ list_all type_right (part program.now at n) }
{
    program[at..at + n].iter().all(|ty| *ty < TYPE_CODES)
}

// Whether the entry of an array at a place is right.
fn array_right(program: &[u8], place: usize) -> bool
    requires { place + array_size ≤ length program.now }
    ensures { result ≡ array_right_lem (array_at program.now place) }
{
    let len = bytes_le::u16_at(program, place + 2);
    program[place] < TYPE_CODES && program[place + 1] == 0 && 1 <= len && len <= MOST_CELLS
}

// Whether n entries of arrays from a place on are all right.
fn are_arrays(program: &[u8], at: usize, n: usize) -> bool
    requires { at + array_size * n ≤ length program.now }
    ensures { result ≡ every array_right_lem (entries array_at array_size program.now at n) }
{
    for i in 0..n {
        if !array_right(program, at + ARRAY_SIZE * i) {
            return false;
        }
    }
    true
}

pub fn types_right(program: &Program) -> bool
    ensures { result ≡ types_right_lem (tables_of program.now) }
{
    let bytes = program.bytes;
    let layout = program.layout;
    fields::all_right(program.fields())
        && are_types(bytes, layout.variables_at, layout.variables)
        && are_arrays(bytes, layout.arrays_at, layout.arrays)
}
