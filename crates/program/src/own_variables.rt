// The own variables of procedures: the variables that a statement names, and the tests of check 16 of a program file that
// speak of variables and calls.
ghost use Rattle.std.specs.Prelude.{◌≡◌, ◌||◌, not, [], ◌∷◌, ℕ, ◌+◌, ◌≤◌, ◌<◌, leb, take, drop};
ghost use Rattle.std.specs.List.{list_all};
ghost use Rattle.model.specs.Lists.{every};
ghost use Rattle.model.specs.Sizes.{most_parameters};
ghost use Rattle.model.specs.Bytes.{bytes4};
ghost use Rattle.model.specs.Procedures.{named, owns, calls_before_lem, procedure_right_lem, procedures_right_lem, apart, all_apart_lem, spares, parts_right_lem};
ghost use Rattle.model.specs.Program.{Tables, arguments_of, item_of, items_of};
ghost use Rattle.program.specs.Parts.{Stretched, begin_in, procedure_between, body_right_lem, procedure_in_lem, procedures_in, parts_in, PartsListed};
ghost use Rattle.program.specs.Reading.{entry_of, statement_of, tables_of};
ghost use Rattle.program.specs.Names.{most_names, names_of, within, NamesAre};

use super::calls::{MOST_PARAMETERS, argument, beginning};
use super::procedures::Main;
use super::statements::{
    ADD, CALL, CONVERSION, COPY, DIV, IF, LOAD, MUL, NUMBER, READ, SITE, STORE, SUB, WHILE,
};
use super::{Entry, Program};

// the most variables that a statement names: the target of a call and its arguments
const MOST_NAMES: usize = 5;

// The variables that a statement names: the first `count` of five, since nothing is allocated.
#[derive(Clone, Copy)]
struct Names {
    count: usize,
    five: [u64; MOST_NAMES],
}

impl Names {
    fn listed(&self) -> &[u64]
        requires { self.now.count ≤ most_names }
        ensures { result.now ≡ names_of self.now }
    {
        &self.five[..self.count]
    }
}

// ---- the variables that a statement names

// At most three variables.
fn few(count: usize, first: u8, second: u8, third: u8) -> Names
    requires { count ≤ 3 }
    ensures { NamesAre result (take count (first ∷ second ∷ third ∷ [])) }
{
    Names {
        count,
        five: [first as u64, second as u64, third as u64, 0, 0],
    }
}

// The target of a call and its arguments.
fn call_names(program: &Program, q: Entry) -> Names
    ensures { NamesAre result (q.a ∷ arguments_of (tables_of program.now) (entry_of q)) }
{
    let begun = beginning(program, q.b as usize);
    let imm = q.imm;
    Names {
        count: (begun.a as usize).min(MOST_PARAMETERS) + 1,
        five: [
            q.a as u64,
            argument(imm, 0),
            argument(imm, 1),
            argument(imm, 2),
            argument(imm, 3),
        ],
    }
}

// By kind.
fn names_of(program: &Program, q: Entry) -> Names
    ensures { NamesAre result (named (item_of (tables_of program.now) (entry_of q))) }
{
    match q.kind {
        NUMBER | READ | SITE | IF | WHILE => few(1, q.a, 0, 0),
        COPY | CONVERSION => few(2, q.a, q.b, 0),
        ADD | SUB | MUL | DIV => few(3, q.a, q.b, q.c),
        LOAD => few(2, q.a, q.c, 0),
        STORE => few(2, q.b, q.c, 0),
        CALL => call_names(program, q),
        _ => few(0, 0, 0, 0),
    }
}

// ---- the tests of a procedure

// Whether a variable is one of `count` from `first` on.
fn is_within(x: u64, first: u8, count: u8) -> bool
    ensures { result ≡ within first count x }
{
    let low = first as u64;
    let high = low + count as u64;
    low <= x && x < high
}

// Whether all names are.
fn names_within(names: &[u64], first: u8, count: u8) -> bool
    ensures { result ≡ list_all (within first count) names.now }
{
    names.iter().all(|x| is_within(*x, first, count))
}

// A call, if it is one, is of a procedure before number n.
fn calls_before(q: Entry, n: usize) -> bool
    ensures { (T : Tables) → result ≡ calls_before_lem n (item_of T (entry_of q)) }
{
    q.kind != CALL || (q.b as usize) < n
}

// The statements of procedure number n use its own variables only, and call earlier procedures only.
fn body_right(program: &Program, begin: usize, end: usize, n: usize) -> bool
    requires { Stretched program.now begin end }
    ensures { result ≡ body_right_lem n (procedure_between (tables_of program.now) begin end) }
{
    let head = program.statement(begin);
    for i in begin + 1..end {
        let q = program.statement(i);
        let names = names_of(program, q);
        if !names_within(names.listed(), head.b, head.c) || !calls_before(q, n) {
            return false;
        }
    }
    true
}

// Procedure number n has an own variable and as many as its parameters, uses these only and calls earlier ones only.
#[tactic(auto, unfolding(model::specs::Procedures::procedure_right_lem))]
fn procedure_right(program: &Program, begin: usize, end: usize, n: usize) -> bool
    requires { Stretched program.now begin end }
    ensures { result ≡ procedure_right_lem n (procedure_between (tables_of program.now) begin end) }
{
    let head = program.statement(begin);
    let params = head.a;
    let count = head.c;
    0 < count && params <= count && body_right(program, begin, end, n)
}

// ---- the tests of all procedures, and of the statements after them

// A program's parts: its procedures, by their labels in a table, and the statements after them.
#[derive(Clone, Copy)]
struct Parts<'a> {
    program: &'a Program<'a>,
    table: &'a [u64],
    main: Main,
    ghost listed: { PartsListed program.now table.now main },
}

impl Parts<'_> {
    ghost use Rattle.program.specs.Listed.{parts_tables, parts_procedures};

    fn procedures_right(&self) -> bool
        ensures { result ≡ procedures_right_lem 0 (parts_procedures self.now) }
    {
        for p in 0..self.main.procedures {
            let begin = self.table[2 * p] as usize;
            let end = self.table[2 * p + 1] as usize;
            if !procedure_right(self.program, begin, end, p) {
                return false;
            }
        }
        true
    }

    // The beginning of the procedure with a number.
    fn begun(&self, p: usize) -> Entry
        requires { p < self.now.main.procedures }
        ensures { entry_of result ≡ statement_of (parts_tables self.now) (begin_in self.now.table.now p) }
    {
        let begin = self.table[2 * p] as usize;
        self.program.statement(begin)
    }

    // Whether the procedure with a number shares no variable with a later one.
    fn apart_from_later(&self, p: usize) -> bool
        requires { p < self.now.main.procedures }
        ensures { result ≡ every (apart (procedure_in_lem (parts_tables self.now) self.now.table.now p)) (drop (p + 1) (parts_procedures self.now)) }
    {
        let q = self.begun(p);
        for i in p + 1..self.main.procedures {
            if !are_apart(q, self.begun(i)) {
                return false;
            }
        }
        true
    }

    // Whether no two procedures share a variable.
    fn all_apart(&self) -> bool
        ensures { result ≡ all_apart_lem (parts_procedures self.now) }
    {
        for p in 0..self.main.procedures {
            if !self.apart_from_later(p) {
                return false;
            }
        }
        true
    }

    // Whether no procedure owns a variable.
    fn owned_by_none(&self, x: u64) -> bool
        ensures { result ≡ every (λ q. not (owns q x)) (parts_procedures self.now) }
    {
        for p in 0..self.main.procedures {
            let q = self.begun(p);
            if is_within(x, q.b, q.c) {
                return false;
            }
        }
        true
    }

    // Whether no procedure owns a name.
    fn names_spared(&self, names: &[u64]) -> bool
        ensures { result ≡ list_all (λ x. every (λ q. not (owns q x)) (parts_procedures self.now)) names.now }
    {
        names.iter().all(|x| self.owned_by_none(*x))
    }

    // Whether no procedure owns a variable that a statement after the procedures names.
    fn main_spared(&self) -> bool
        ensures { result ≡ every (spares (parts_procedures self.now)) (drop self.now.main.label (items_of (parts_tables self.now))) }
    {
        for i in self.main.label..self.program.statements() {
            let q = self.program.statement(i);
            let names = names_of(self.program, q);
            if !self.names_spared(names.listed()) {
                return false;
            }
        }
        true
    }
}

// Whether two procedures share no variable.
fn are_apart(q: Entry, r: Entry) -> bool
    ensures { result ≡ (leb (q.b + q.c) r.b || leb (r.b + r.c) q.b) }
{
    let first = q.b as usize;
    let second = r.b as usize;
    first + q.c as usize <= second || second + r.c as usize <= first
}

// ---- check 16 of the procedures

#[tactic(auto, unfolding(model::specs::Procedures::parts_right_lem))]
pub fn parts_right(program: &Program, table: &[u64], main: Main) -> bool
    requires { PartsListed program.now table.now main }
    ensures { result ≡ parts_right_lem (parts_in (tables_of program.now) table.now main.label main.procedures) }
{
    let parts = Parts {
        program,
        table,
        main,
    };
    parts.procedures_right() && parts.all_apart() && parts.main_spared()
}
