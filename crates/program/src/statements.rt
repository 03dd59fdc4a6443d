// The statements one by one: their forms, the agreement of their types and their immediates, checks 5 to 7 of a
// program file.
ghost use Rattle.std.specs.Prelude.{◌≡◌, true, ◌&&◌, List, ℕ, ◌<◌, eqb, ltb, length};
ghost use Rattle.model.specs.Refusals.{Out};
ghost use Rattle.model.specs.Program.{types_right_lem, form_right_lem, alike, cell_alike, types_agree_lem, immediate_right_lem};
ghost use Rattle.program.specs.Reading.{followed, form_checked, statement_checks, entry_of, statement_from, tables_of};

use super::calls::{call_agrees, call_form, procedure_form};
use super::{Entry, Program};
use refusals::Refusal;

// the kinds of statements; those before the if are plain
pub const NUMBER: u8 = 0;

pub const COPY: u8 = 1;

pub const ADD: u8 = 2;

pub const SUB: u8 = 3;

pub const MUL: u8 = 4;

pub const DIV: u8 = 5;

pub const CONVERSION: u8 = 6;

pub const READ: u8 = 7;

pub const LOAD: u8 = 8;

pub const STORE: u8 = 9;

pub const SITE: u8 = 10;

pub const IF: u8 = 11;

pub const ELSE: u8 = 12;

const END: u8 = 13;

pub const WHILE: u8 = 14;

pub const PROCEDURE: u8 = 15;

pub const CALL: u8 = 16;

// the type codes below this one are unsigned
const UNSIGNED_CODES: u8 = 4;

// ---- check 5

// Whether each operand is below its limit; where it is unused the limit is 1. Not as one `&&`: compiled, a variable's
// number would then be tested a second time where its type is read.
fn operands(q: Entry, a: usize, b: usize, c: usize) -> bool
    ensures { result ≡ (ltb q.a a && ltb q.b b && ltb q.c c) }
{
    if a <= q.a as usize || b <= q.b as usize {
        return false;
    }
    (q.c as usize) < c
}

// The same of a statement that has no immediate.
fn no_immediate(q: Entry, a: usize, b: usize, c: usize) -> bool
    ensures { result ≡ (ltb q.a a && ltb q.b b && ltb q.c c && eqb q.imm 0) }
{
    operands(q, a, b, c) && q.imm == 0
}

// By kind: what the operands and the immediate have to be. Each kind has an arm of its own, alike or not: compiled,
// the choice then serves check 6 as well.
#[tactic(auto, using(crate::proofs::statements::ByKind::below_one), unfolding(model::specs::Program::form_right_lem, model::specs::Kinds::kind_of))]
fn form_right(program: &Program, q: Entry) -> bool
    ensures { result ≡ form_right_lem (tables_of program.now) (entry_of q) }
{
    let v = program.variables();
    match q.kind {
        NUMBER => operands(q, v, 1, 1),
        COPY => no_immediate(q, v, v, 1),
        ADD => no_immediate(q, v, v, v),
        SUB => no_immediate(q, v, v, v),
        MUL => no_immediate(q, v, v, v),
        DIV => no_immediate(q, v, v, v),
        CONVERSION => no_immediate(q, v, v, 1),
        READ => no_immediate(q, v, program.field_count(), 1),
        LOAD => no_immediate(q, v, program.arrays(), v),
        STORE => no_immediate(q, program.arrays(), v, v),
        SITE => no_immediate(q, v, 1, 1),
        IF => no_immediate(q, v, 1, 1),
        ELSE => no_immediate(q, 1, 1, 1),
        END => no_immediate(q, 1, 1, 1),
        WHILE => no_immediate(q, v, 1, 1),
        PROCEDURE => procedure_form(program, q),
        CALL => call_form(program, q),
        _ => false,
    }
}

// The statement with a label, if its form is right.
fn read_statement(program: &Program, i: usize) -> Result<Entry, Refusal>
    requires { i < length (tables_of program.now).statements }
    ensures { statement_from result ≡ form_checked (tables_of program.now) i }
{
    let q = program.statement(i);
    if !form_right(program, q) {
        return Err(Refusal::WrongStatement);
    }
    Ok(q)
}

// ---- check 6

// Whether a variable and an array are of one type, and an index is of an unsigned one.
#[tactic(auto, using(crate::proofs::statements::ByKind::unsigned_first))]
fn cell_agrees(program: &Program, array: usize, x: usize, index: usize) -> bool
    ensures { result ≡ cell_alike (tables_of program.now) array x index }
{
    let ty = program.array_type(array);
    program.variable_type(x) == ty && program.variable_type(index) < UNSIGNED_CODES
}

// Whether three variables are of one type.
fn three_agree(program: &Program, a: usize, b: usize, c: usize) -> bool
    ensures { result ≡ (alike (tables_of program.now) b a && alike (tables_of program.now) c a) }
{
    let ty = program.variable_type(a);
    program.variable_type(b) == ty && program.variable_type(c) == ty
}

// By kind: whether the types in a statement agree, and an index is unsigned.
#[tactic(auto, using(crate::proofs::statements::ByKind::agree_none))]
fn types_agree(program: &Program, q: Entry) -> bool
    ensures { result ≡ types_agree_lem (tables_of program.now) (entry_of q) }
{
    let a = q.a as usize;
    let b = q.b as usize;
    let c = q.c as usize;
    match q.kind {
        COPY => program.variable_type(b) == program.variable_type(a),
        ADD | SUB | MUL | DIV => three_agree(program, a, b, c),
        READ => program.field_type(b) == program.variable_type(a),
        LOAD => cell_agrees(program, b, a, c),
        STORE => cell_agrees(program, a, c, b),
        CALL => call_agrees(program, q),
        _ => true,
    }
}

// ---- check 7

fn immediate_right(program: &Program, q: Entry) -> bool
    requires { types_right_lem (tables_of program.now) ≡ true }
    ensures { result ≡ immediate_right_lem (tables_of program.now) (entry_of q) }
{
    let a = q.a as usize;
    if q.kind != NUMBER {
        return true;
    }
    let ty = program.variable_type(a);
    let n = arith::immediate(ty, q.imm);
    arith::is_of_type(arith::range_of(ty), n)
}

// ---- checks 5 to 7

// Each statement is read by its form; of the entry that the reader gives the types and the immediate
// are looked at. Of the three checks the first that some statement fails counts.
pub fn statements_right(program: &Program) -> Result<(), Refusal>
    requires { types_right_lem (tables_of program.now) ≡ true }
    ensures { (o : Out (List ℕ)) → followed result o ≡ statement_checks program.now o }
{
    let mut agree = true;
    let mut inside = true;
    for i in 0..program.statements() {
        // let .. else, and no ?: the form that document 01 names for a reader's entry (docs/DECISIONS.md).
        let Ok(q) = read_statement(program, i) else {
            return Err(Refusal::WrongStatement);
        };
        agree &= types_agree(program, q);
        inside &= immediate_right(program, q);
    }
    if !agree {
        return Err(Refusal::TypesDisagree);
    }
    if !inside {
        return Err(Refusal::WrongImmediate);
    }
    Ok(())
}
