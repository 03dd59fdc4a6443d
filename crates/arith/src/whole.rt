// The exact result of an operation, whatever the type: a whole number whose magnitude may pass 64 bits, worked
// from signs and magnitudes.
ghost use Rattle.std.specs.Prelude.{◌≡◌, ◌*◌, ◌%◌, ◌^◌, ℤ, nat_le};
ghost use Rattle.arith.specs.Whole.{value_of, Holds};
ghost use Rattle.arith.specs.Step.{exact_of_lem, lacks_divisor};

use super::{Num, Op};

// A whole number whose magnitude may pass 64 bits: its sign, whether the magnitude is 2^64 or
// more, and the magnitude modulo 2^64. No Option: the lowest bits hold either way.
#[derive(Clone, Copy)]
pub struct Whole {
    pub neg: bool,
    pub over: bool,
    pub low: u64,
}

// The exact sum, from the magnitudes.
fn sum(a: Num, b: Num) -> Whole
    ensures { Holds result (exact_of_lem Op.Add (value_of a) (value_of b)) }
{
    let x = a.mag;
    let y = b.mag;
    let s = a.neg;
    if s == b.neg {
        let (low, over) = x.overflowing_add(y);
        return Whole { neg: s, over, low };
    }
    if x < y {
        return Whole {
            neg: b.neg,
            over: false,
            low: y - x,
        };
    }
    Whole {
        neg: s,
        over: false,
        low: x - y,
    }
}

fn difference(a: Num, b: Num) -> Whole
    ensures { Holds result (exact_of_lem Op.Sub (value_of a) (value_of b)) }
{
    sum(
        a,
        Num {
            neg: !b.neg,
            mag: b.mag,
        },
    )
}

fn product(a: Num, b: Num) -> Whole
    ensures { Holds result (exact_of_lem Op.Mul (value_of a) (value_of b)) }
{
    let (low, over) = a.mag.overflowing_mul(b.mag);
    Whole {
        neg: a.neg != b.neg,
        over,
        low,
    }
}

// Toward zero; 0 where there is no divisor.
fn quotient(a: Num, b: Num) -> Whole
    ensures { Holds result (exact_of_lem Op.Div (value_of a) (value_of b)) }
{
    if b.mag == 0 {
        return Whole {
            neg: false,
            over: false,
            low: 0,
        };
    }
    Whole {
        neg: a.neg != b.neg,
        over: false,
        low: a.mag / b.mag,
    }
}

pub fn kept(a: Num) -> Whole
    ensures { Holds result (value_of a) }
{
    Whole {
        neg: a.neg,
        over: false,
        low: a.mag,
    }
}

pub fn exact(op: Op, a: Num, b: Num) -> Whole
    ensures { Holds result (exact_of_lem op (value_of a) (value_of b)) }
{
    match op {
        Op::Add => sum(a, b),
        Op::Sub => difference(a, b),
        Op::Mul => product(a, b),
        Op::Div => quotient(a, b),
        Op::Convert => kept(a),
    }
}

// A division by zero.
pub fn lacks(op: Op, b: Num) -> bool
    ensures { result ≡ lacks_divisor op (value_of b) }
{
    match op {
        Op::Div => b.mag == 0,
        _ => false,
    }
}

// Whether the magnitude of w is at most l.
pub fn within(w: Whole, l: u64) -> bool
    ensures { (z : ℤ) (h : Holds w z) → result ≡ nat_le h.mag l }
{
    if w.over {
        return false;
    }
    w.low <= l
}
