// Procedures and calls, one by one: the beginning of a procedure by its number, the arguments of a call, and the forms
// and types of both, for checks 5 and 6 of a program file.
ghost use Rattle.std.specs.Prelude.{◌≡◌, ◌&&◌, ◌<◌, eqb, ltb, length, get_or, take, drop};
ghost use Rattle.model.specs.Lists.{every};
ghost use Rattle.model.specs.Bytes.{bytes4};
ghost use Rattle.model.specs.Program.{beginnings, beginning_of, unused, procedure_form_lem, call_form_lem, all_alike, call_alike};
ghost use Rattle.program.specs.Numbers.{procedure_kind};
ghost use Rattle.program.specs.Reading.{entry_of, tables_of};

use super::statements::PROCEDURE;
use super::{Entry, Program};

// the parameters of a procedure at the most: as many as an immediate has bytes
pub const MOST_PARAMETERS: usize = 4;

// ---- procedures by number, and arguments

// The beginning of the procedure with a number, by order of appearance; past the last one an entry of zeros.
pub fn beginning(program: &Program, p: usize) -> Entry
    ensures { (entry_of result ≡ beginning_of (tables_of program.now) p)
        × (eqb result.kind procedure_kind ≡ ltb p (length (beginnings (tables_of program.now).statements))) }
{
    let mut left = p;
    for i in 0..program.statements() {
        if program.kind_at(i) != PROCEDURE {
            continue;
        }
        if left == 0 {
            return program.statement(i);
        }
        left -= 1;
    }
    Entry {
        kind: 0,
        a: 0,
        b: 0,
        c: 0,
        imm: 0,
    }
}

// Byte j of an immediate. Not by to_le_bytes: a number has 64 bits here, and byte 3 is promised to be all that is left of it.
pub fn argument(imm: u64, j: usize) -> u64
    ensures { result ≡ get_or (bytes4 imm) j 0 }
{
    match j {
        0 => imm % 256,
        1 => imm / 256 % 256,
        2 => imm / 65536 % 256,
        3 => imm / 16777216,
        _ => 0,
    }
}

// ---- check 5

// The beginning of a procedure: its parameters, and its own variables, which there are.
#[tactic(auto, unfolding(model::specs::Program::procedure_form_lem))]
pub fn procedure_form(program: &Program, q: Entry) -> bool
    ensures { result ≡ procedure_form_lem (tables_of program.now) (entry_of q) }
{
    let params = q.a as usize;
    let first = q.b as usize;
    let count = q.c as usize;
    params <= MOST_PARAMETERS && first + count <= program.variables() && q.imm == 0
}

// Whether the first n bytes of an immediate are variables, and the others zero.
fn arguments_right(imm: u64, n: usize, variables: usize) -> bool
    ensures { result ≡ (every (λ x. ltb x variables) (take n (bytes4 imm)) && every unused (drop n (bytes4 imm))) }
{
    for j in 0..MOST_PARAMETERS {
        let x = argument(imm, j);
        let right = if j < n { x < variables as u64 } else { x == 0 };
        if !right {
            return false;
        }
    }
    true
}

// A call: its target, a procedure that there is, and in the immediate the arguments, with zeros after them.
pub fn call_form(program: &Program, q: Entry) -> bool
    ensures { result ≡ call_form_lem (tables_of program.now) (entry_of q) }
{
    let v = program.variables();
    let begun = beginning(program, q.b as usize);
    (q.a as usize) < v
        && begun.kind == PROCEDURE
        && q.c == 0
        && arguments_right(q.imm, begun.a as usize, v)
}

// ---- check 6

// Whether the first n bytes of an immediate are variables of the types of those from x on.
fn arguments_agree(program: &Program, imm: u64, n: usize, x: usize) -> bool
    requires { x < 256 }
    ensures { result ≡ all_alike (tables_of program.now) (take n (bytes4 imm)) x }
{
    for j in 0..n.min(MOST_PARAMETERS) {
        let given = program.variable_type(argument(imm, j) as usize);
        if given != program.variable_type(x + j) {
            return false;
        }
    }
    true
}

// The arguments of a call have their parameters' types and the target the result's. A call of a procedure with no own
// variables, or fewer than its parameters, is passed over.
pub fn call_agrees(program: &Program, q: Entry) -> bool
    ensures { result ≡ call_alike (tables_of program.now) (entry_of q) }
{
    let begun = beginning(program, q.b as usize);
    let params = begun.a as usize;
    let first = begun.b as usize;
    let count = begun.c as usize;
    if count == 0 || count < params {
        return true;
    }
    arguments_agree(program, q.imm, params, first)
        && program.variable_type(q.a as usize) == program.variable_type(first + count - 1)
}
