// The blocks, met from the first statement to the last, with procedures, which do not count: check 8 of a program file.
ghost use Rattle.std.specs.Prelude.{◌≡◌, ◌∷◌, ◌≤◌, ◌<◌, ltb, length};
ghost use Rattle.model.specs.Sizes.{most_nested, most_statements};
ghost use Rattle.model.specs.Refusals.{ok};
ghost use Rattle.model.specs.Procedures.{procedure_block, opening, turning, closing, passing};
ghost use Rattle.model.specs.Program.{Statement, Tables, item_of};
ghost use Rattle.program.specs.OpenBlocks.{block_of, blocks_of, passed_of, Packed, Opens, PackedIf, NestingIs};
ghost use Rattle.program.specs.Reading.{tables_of};

use super::Program;
use super::statements::{CALL, ELSE, IF, PROCEDURE, WHILE};

// the blocks that may be open at once
const MOST_NESTED: usize = 4;

// the codes of a block that counts: an if, an if whose else has been met (1), a while
const IF_CODE: u64 = 0;

const WHILE_CODE: u64 = 2;

const BLOCK_CODES: u64 = 4;

// what a block takes of the word: its code, and behind it the number of procedures directly around it
const BLOCK_SIZE: u64 = 0x1000;

// The open blocks: how many procedures are open inside the innermost block that counts, how many blocks count, and
// these in a word, the innermost lowest.
#[derive(Clone, Copy)]
struct Open {
    inner: usize,
    nested: usize,
    word: u64,
}

// What a program's blocks are: plain where no statement begins a procedure.
#[derive(Clone, Copy, Debug, PartialEq, Eq)]
pub enum Blocks {
    Plain,
    WithProcedures,
}

// ---- one statement

// Whether one more block may be open; procedures do not count.
fn has_room(blocks: Open) -> bool
    requires { Packed blocks × (blocks.inner < most_statements) }
    ensures { result ≡ ltb blocks.nested most_nested }
{
    blocks.nested < MOST_NESTED
}

// An if or a while opens a block, if there is room for one more.
fn open_block(blocks: Open, code: u64) -> Option<Open>
    requires { Opens blocks code }
    ensures { (passed_of result ≡ opening (block_of code) (blocks_of blocks)) × PackedIf result }
{
    let inner = blocks.inner as u64;
    let nested = blocks.nested;
    let word = blocks.word;
    if !has_room(blocks) {
        return None;
    }
    Some(Open {
        inner: 0,
        nested: nested + 1,
        word: word * BLOCK_SIZE + (inner * BLOCK_CODES + code),
    })
}

// An else turns an if.
fn turn_block(blocks: Open) -> Option<Open>
    requires { Packed blocks }
    ensures { (passed_of result ≡ turning (blocks_of blocks)) × PackedIf result }
{
    let word = blocks.word;
    if blocks.inner != 0 || blocks.nested == 0 || word % BLOCK_CODES != IF_CODE {
        return None;
    }
    Some(Open {
        word: word + 1,
        ..blocks
    })
}

// An end closes anything but an if without its else.
fn close_block(blocks: Open) -> Option<Open>
    requires { Packed blocks }
    ensures { (passed_of result ≡ closing (blocks_of blocks)) × PackedIf result }
{
    let inner = blocks.inner;
    let nested = blocks.nested;
    let word = blocks.word;
    if inner != 0 {
        return Some(Open {
            inner: inner - 1,
            ..blocks
        });
    }
    if nested == 0 || word % BLOCK_CODES == IF_CODE {
        return None;
    }
    Some(Open {
        inner: (word % BLOCK_SIZE / BLOCK_CODES) as usize,
        nested: nested - 1,
        word: word / BLOCK_SIZE,
    })
}

// A procedure begins.
fn open_procedure(blocks: Open) -> Open
    requires { Packed blocks × (blocks.inner < most_statements) }
    ensures { (blocks_of result ≡ procedure_block ∷ blocks_of blocks) × Packed result }
{
    Open {
        inner: blocks.inner + 1,
        ..blocks
    }
}

// The open blocks behind a statement of a kind, from those before it.
fn pass_statement(blocks: Open, kind: u8) -> Option<Open>
    requires { Packed blocks × (blocks.inner < most_statements) }
    ensures { ((T : Tables) (q : Statement) → q.kind ≡ kind → passed_of result ≡ passing (item_of T q) (blocks_of blocks)) × PackedIf result }
{
    if kind < IF {
        return Some(blocks);
    }
    match kind {
        IF => open_block(blocks, IF_CODE),
        ELSE => turn_block(blocks),
        WHILE => open_block(blocks, WHILE_CODE),
        PROCEDURE => Some(open_procedure(blocks)),
        CALL => Some(blocks),
        _ => close_block(blocks),
    }
}

// ---- check 8

// From the first statement to the last: every block that is opened is closed, and at the end none is open.
pub fn nesting_right(program: &Program) -> Option<Blocks>
    requires { length (tables_of program.now).statements ≤ most_statements }
    ensures { NestingIs (tables_of program.now) result }
{
    let mut blocks = Open {
        inner: 0,
        nested: 0,
        word: 0,
    };
    let mut found = Blocks::Plain;
    for i in 0..program.statements() {
        let kind = program.kind_at(i);
        if kind == PROCEDURE {
            found = Blocks::WithProcedures;
        }
        blocks = pass_statement(blocks, kind)?;
    }
    if blocks.inner != 0 || blocks.nested != 0 {
        return None;
    }
    Some(found)
}
