// Which variables and arrays a set of conjuncts speaks of, and whether a part of a program changes
// any of them.
#![tactic(auto)]

ghost use Rattle.std.specs.Prelude.{◌≡◌, true, ◌+◌, ◌≤◌, length};
ghost use Rattle.code_table.specs.Statements.{stmt_from};
ghost use Rattle.code_table.specs.Table.{stmts};
ghost use Rattle.conjunct.specs.Word.{nodes_of_lem};
ghost use Rattle.sets.specs.Region.{slot_words, region_words, slot_at, set_of};
ghost use Rattle.footprint.specs.Footprints.{Covers, CoversSet, CoversRegion, Extends, Labels, FlagsVariable, FlagsArray, Flags, FlagsAll, Follows, Spares, SparedAll, BackTo};

use code_table::Decoded;
use conjunct::node::{LOAD, VARIABLE};

// The flags of variables, and of arrays.
const VARIABLE_FLAGS: usize = 64;

const ARRAYS: usize = 16;

// So many statements are looked at while one conjunct is.
const STATEMENTS_A_CONJUNCT: usize = 4;

// A flag for each variable, by its number modulo their count, and for each array.
#[derive(Clone, Copy)]
pub struct Footprint {
    pub variables: [bool; VARIABLE_FLAGS],
    pub arrays: [bool; ARRAYS],
}

impl Footprint {
    // The flag of the variable x is set.
    fn flag_variable(&mut self, x: usize)
        ensures { Extends self.old self.new × FlagsVariable self.new x }
    {
        self.variables[x % VARIABLE_FLAGS] = true;
    }

    // The flag of the array t is set, if it has one.
    fn flag_array(&mut self, t: usize)
        ensures { Extends self.old self.new × FlagsArray self.new t }
    {
        if t < ARRAYS {
            self.arrays[t] = true;
        }
    }

    // Those of the conjunct of the slot at a are set.
    fn flag_slot(&mut self, s: &[u64], a: usize)
        requires { a + slot_words ≤ length s.now }
        ensures { Extends self.old self.new × Covers self.new (nodes_of_lem (slot_at s.now a)) }
    {
        let n = conjunct::capped(s[a] as usize);
        for j in 0..n {
            let w = s[a + 1 + j];
            if w < VARIABLE {
                continue;
            }
            if w < LOAD {
                self.flag_variable((w / 0x100_0000) as usize);
            } else {
                self.flag_array((w / 0x1_0000 % 0x100) as usize);
            }
        }
    }

    // Those that the rule of a statement may bring into a set are set: of the variables and the array of its right
    // side, or of the stored variable.
    fn flag_statement(&mut self, d: Decoded)
        ensures { Extends self.old self.new × Flags self.new (stmt_from d) }
    {
        match d.kind {
            1 | 6 => self.flag_variable(d.b),
            2..=5 => {
                self.flag_variable(d.b);
                self.flag_variable(d.c);
            }
            8 => self.flag_array(d.b),
            9 => self.flag_variable(d.c),
            _ => {}
        }
    }

    // Those that the statements on the labels from p up to q may bring are set, however often they are walked.
    fn flag_statements(&mut self, s: &[u64], p: usize, q: usize)
        requires { Labels s.now p q }
        ensures { Extends self.old self.new × FlagsAll self.new (stmts s.now) p q }
    {
        for i in p..q {
            self.flag_statement(code_table::fetch(s, 0, i));
        }
    }

    // Whether a statement changes nothing that is flagged.
    fn spares(&self, d: Decoded) -> bool
        ensures { result ≡ true → Spares self.now (stmt_from d) }
    {
        if 10 <= d.kind {
            return true;
        }
        if d.kind == 9 {
            return d.a < ARRAYS && !self.arrays[d.a];
        }
        !self.variables[d.a % VARIABLE_FLAGS]
    }

    // The first statement on the labels from p up to q that changes anything that is flagged.
    fn first_changing(&self, s: &[u64], p: usize, q: usize) -> Option<Decoded>
        requires { Labels s.now p q }
        ensures { result ≡ None → SparedAll self.now (stmts s.now) p q }
    {
        for i in p..q {
            let d = code_table::fetch(s, 0, i);
            if !self.spares(d) {
                return Some(d);
            }
        }
        None
    }
}

// ---- what a set speaks of

// Those of the set of the region at b.
pub fn of_set(s: &[u64], b: usize) -> Footprint
    requires { b + region_words ≤ length s.now }
    ensures { CoversSet result (set_of s.now b) }
{
    let n = sets::size(s, b);
    let mut r = Footprint {
        variables: [false; VARIABLE_FLAGS],
        arrays: [false; ARRAYS],
    };
    for i in 0..n {
        r.flag_slot(s, b + 1 + sets::SLOT * i);
    }
    r
}

// ---- what a program brings

// From flags of a set those of what the walk of the statements on the labels from p up to q made of it, in the
// region at b: with what the statements may bring, or anew, where it is the set that is looked at sooner.
pub fn flags_after(s: &[u64], m: Footprint, b: usize, p: usize, q: usize) -> Footprint
    requires { Labels s.now p q × (b + region_words ≤ length s.now) }
    ensures { Follows m result (stmts s.now) p q (set_of s.now b) }
{
    if STATEMENTS_A_CONJUNCT * sets::size(s, b) < q - p {
        return of_set(s, b);
    }
    let mut r = m;
    r.flag_statements(s, p, q);
    r
}

// ---- what a program changes

// Whether the statements on the labels from p up to q change none of them.
pub fn spares_all(s: &[u64], m: Footprint, p: usize, q: usize) -> bool
    requires { Labels s.now p q }
    ensures { result ≡ true → SparedAll m (stmts s.now) p q }
{
    m.first_changing(s, p, q).is_none()
}

// How far back from r, but not past p, each statement is plain and changes none of them.
pub fn spared_plain(s: &[u64], m: Footprint, p: usize, r: usize) -> usize
    requires { Labels s.now p r }
    ensures { BackTo m (stmts s.now) p r result }
{
    for l in (p..r).rev() {
        let d = code_table::fetch(s, 0, l);
        if 11 <= d.kind || !m.spares(d) {
            return l + 1;
        }
    }
    p
}

// ---- flags that are out of date

// Whether the conjunct of the slot at a speaks of what a statement changes.
fn slot_speaks_of(s: &[u64], a: usize, d: Decoded) -> bool
    requires { a + slot_words ≤ length s.now }
{
    let n = conjunct::capped(s[a] as usize);
    if d.kind == 9 {
        return conjunct::mentions_array(&s[a + 1..], n, d.a as u64, d.len);
    }
    conjunct::mentions_variable(&s[a + 1..], n, d.a as u64)
}

// Whether a conjunct of the region at b does.
fn speaks_of(s: &[u64], b: usize, d: Decoded) -> bool
    requires { b + region_words ≤ length s.now }
{
    let n = sets::size(s, b);
    for i in 0..n {
        if slot_speaks_of(s, b + 1 + sets::SLOT * i, d) {
            return true;
        }
    }
    false
}

// Whether the flags do for the labels from p up to q as well as new ones: they spare each statement, or the set
// of the region at b speaks of what the first that they do not spare changes. Either answer is right.
fn up_to_date(s: &[u64], m: Footprint, b: usize, p: usize, q: usize) -> bool
    requires { Labels s.now p q × (b + region_words ≤ length s.now) }
{
    match m.first_changing(s, p, q) {
        Some(d) => speaks_of(s, b, d),
        None => true,
    }
}

// Flags that cover the set of the region at b as those given do: made anew where these do not spare a statement
// from p up to q that changes nothing the set speaks of.
pub fn renewed(s: &[u64], m: Footprint, b: usize, p: usize, q: usize) -> Footprint
    requires { Labels s.now p q × CoversRegion m s.now b }
    ensures { CoversSet result (set_of s.now b) }
{
    if up_to_date(s, m, b, p, q) {
        return m;
    }
    of_set(s, b)
}
