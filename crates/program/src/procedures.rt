// The procedures of a program and the statements after them, for check 16 of a program file.
ghost use Rattle.std.specs.Prelude.{◌≡◌, not, ◌≤◌, drop};
ghost use Rattle.model.specs.Lists.{every};
ghost use Rattle.model.specs.Sizes.{most_statements};
ghost use Rattle.model.specs.Procedures.{begins_none};
ghost use Rattle.model.specs.Program.{Statement, Tables, item_of, items_of};
ghost use Rattle.program.specs.Parts.{item_at, Begins, Tabled, depth_after_lem, EndIs, PartsBy};
ghost use Rattle.program.specs.Reading.{tables_of};

use super::Program;
use super::statements::{CALL, ELSE, IF, PROCEDURE, WHILE};

// Where the statements after the procedures begin, and how many procedures there are.
#[derive(Clone, Copy, Debug, PartialEq, Eq)]
pub struct Main {
    pub label: usize,
    pub procedures: usize,
}

// ---- one procedure

// How many blocks are open behind a statement of a kind, the procedure counted.
fn depth_after(depth: usize, kind: u8) -> usize
    requires { (1 ≤ depth) × (depth ≤ most_statements) }
    ensures { (T : Tables) (q : Statement) → q.kind ≡ kind → result ≡ depth_after_lem depth (item_of T q) }
{
    if kind < IF {
        return depth;
    }
    match kind {
        IF | WHILE => depth + 1,
        ELSE | PROCEDURE | CALL => depth,
        _ => depth - 1,
    }
}

// The label of the end of the procedure that begins at a label; none where it is not closed, or another begins in it.
fn procedure_end(program: &Program, begin: usize) -> Option<usize>
    requires { Begins program.now begin }
    ensures { EndIs (tables_of program.now) begin result }
{
    let mut depth: usize = 1;
    for i in begin + 1..program.statements() {
        let kind = program.kind_at(i);
        if kind == PROCEDURE {
            return None;
        }
        depth = depth_after(depth, kind);
        if depth == 0 {
            return Some(i);
        }
    }
    None
}

// ---- all of them

// Whether the statement with a label begins a procedure; past the last one none does.
pub fn begins_procedure(program: &Program, i: usize) -> bool
    ensures { result ≡ not (begins_none (item_at (tables_of program.now) i)) }
{
    i < program.statements() && program.kind_at(i) == PROCEDURE
}

// Whether no statement from a label on begins a procedure.
fn none_begins(program: &Program, from: usize) -> bool
    ensures { result ≡ every begins_none (drop from (items_of (tables_of program.now))) }
{
    for i in from..program.statements() {
        if begins_procedure(program, i) {
            return false;
        }
    }
    true
}

// The procedures into a table, two words for each, the labels of its beginning and of its end; and the statements after
// them. None where a procedure stands late or inside another.
pub fn parts(program: &Program, table: &mut [u64]) -> Option<Main>
    requires { Tabled program.now table.old }
    ensures { PartsBy (tables_of program.now) table.new result }
{
    let mut count: usize = 0;
    let mut i: usize = 0;
    // A while: the label moves behind the end of the procedure that is read.
    while begins_procedure(program, i) {
        let end = procedure_end(program, i)?;
        table[2 * count] = i as u64;
        table[2 * count + 1] = end as u64;
        count += 1;
        i = end + 1;
    }
    if !none_begins(program, i) {
        return None;
    }
    Some(Main {
        label: i,
        procedures: count,
    })
}
