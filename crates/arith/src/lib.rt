// One step of arithmetic on the eight integer types, in whole numbers: its value, or why it
// overflows; and wrapped to the type, with whether it overflowed.
#![tactic(auto)]

ghost use Rattle.std.specs.Prelude.{◌≡◌, ℕ, ◌%◌, ◌^◌, ◌<◌, ◌≤◌, true, not, ◌||◌, ℤ, pos, if◌then◌else◌, int_le};
ghost use Rattle.arith.specs.declared.Cause.TheVariants.{Above, Below, NoDivisor};
ghost use Rattle.arith.specs.Types.{Row, IsRow, bits, lowest, limit_of};
ghost use Rattle.arith.specs.Whole.{value_of, Holds};
ghost use Rattle.arith.specs.Words.{word_of, value_at, immediate};
ghost use Rattle.arith.specs.Step.{op_of, exact_of_lem, lacks_divisor, fits, cause_number, step_of, outcome_of, wrap, overflows};

use whole::Whole;

mod whole;

// A whole number by its sign and its magnitude. Zero may have either sign.
#[derive(Clone, Copy)]
pub struct Num {
    pub neg: bool,
    pub mag: u64,
}

// A type's width in bits, how far its lowest value lies below 0, and its highest value.
#[derive(Clone, Copy)]
pub struct Range {
    pub bits: u32,
    pub lowest: u64,
    pub highest: u64,
}

#[derive(Clone, Copy, Debug, PartialEq, Eq)]
pub enum Op {
    Add,
    Sub,
    Mul,
    Div,
    Convert,
}

// Why a step overflows in its type: the result is above the type's range, below it, or there is no divisor.
#[derive(Clone, Copy, Debug, PartialEq, Eq)]
pub enum Cause {
    Above,
    Below,
    NoDivisor,
}

// A cause's number: 1 too big, 2 too small, 3 no divisor.
impl From<Cause> for u64 {
    ghost from_gives = { λ c n. (n ≡ cause_number c) × (n ≤ 3) };

    fn from(cause: Cause) -> u64 {
        match cause {
            Cause::Above => 1,
            Cause::Below => 2,
            Cause::NoDivisor => 3,
        }
    }
}

// The word of a step's result wrapped to the type, and whether the step overflowed. No Option: the word holds
// either way.
#[derive(Clone, Copy)]
pub struct WrappedWord {
    pub word: u64,
    pub over: bool,
}

// The types by their codes: u8, u16, u32, u64, i8, i16, i32, i64.
const RANGES: [Range; 8] = [
    Range {
        bits: 8,
        lowest: 0,
        highest: 0xff,
    },
    Range {
        bits: 16,
        lowest: 0,
        highest: 0xffff,
    },
    Range {
        bits: 32,
        lowest: 0,
        highest: 0xffff_ffff,
    },
    Range {
        bits: 64,
        lowest: 0,
        highest: 0xffff_ffff_ffff_ffff,
    },
    Range {
        bits: 8,
        lowest: 0x80,
        highest: 0x7f,
    },
    Range {
        bits: 16,
        lowest: 0x8000,
        highest: 0x7fff,
    },
    Range {
        bits: 32,
        lowest: 0x8000_0000,
        highest: 0x7fff_ffff,
    },
    Range {
        bits: 64,
        lowest: 0x8000_0000_0000_0000,
        highest: 0x7fff_ffff_ffff_ffff,
    },
];

// The row of a type, by its code.
pub fn range_of(ty: u8) -> Range
    requires { ty < 8 }
    ensures { Row ty result }
{
    RANGES[ty as usize]
}

// The same for a step that is worked over and over: for an index that is known at run time only the
// compiler builds the table anew at each use, and a row that is named it loads from constant memory.
pub fn step_range(ty: u8) -> Range
    requires { ty < 8 }
    ensures { Row ty result }
{
    match ty {
        0 => RANGES[0],
        1 => RANGES[1],
        2 => RANGES[2],
        3 => RANGES[3],
        4 => RANGES[4],
        5 => RANGES[5],
        6 => RANGES[6],
        _ => RANGES[7],
    }
}

// The largest magnitude that a type has on the side of a sign.
fn limit(range: Range, neg: bool) -> u64
    ensures { (ty : ℕ) → Row ty range → result ≡ limit_of ty neg }
{
    if neg { range.lowest } else { range.highest }
}

// Whether a step with the exact result w overflows.
fn overflowed(op: Op, range: Range, b: Num, w: Whole) -> bool
    ensures { (ty : ℕ) (z : ℤ) → Row ty range → Holds w z → result ≡ (lacks_divisor op (value_of b) || not (fits ty z)) }
{
    if whole::lacks(op, b) {
        return true;
    }
    let neg = w.neg;
    let l = limit(range, neg);
    !whole::within(w, l)
}

// Why a step with the exact result w overflows: without a divisor, or on the side of 0 where w is.
fn cause_of(op: Op, b: Num, w: Whole) -> Cause
    ensures { (ty : ℕ) (z : ℤ) → Holds w z → (lacks_divisor op (value_of b) || not (fits ty z)) ≡ true
        → result ≡ (if lacks_divisor op (value_of b) then NoDivisor else (if int_le (lowest ty) z then Above else Below)) }
{
    if whole::lacks(op, b) {
        return Cause::NoDivisor;
    }
    if w.neg {
        return Cause::Below;
    }
    Cause::Above
}

// One step in whole numbers, on values that need not be of the type: its value, or why it
// overflows in the type.
pub fn checked_step(op: Op, range: Range, a: Num, b: Num) -> Result<Num, Cause>
    ensures { (ty : ℕ) → Row ty range → outcome_of result ≡ step_of op ty (value_of a) (value_of b) }
{
    let w = whole::exact(op, a, b);
    if overflowed(op, range, b, w) {
        return Err(cause_of(op, b, w));
    }
    Ok(Num {
        neg: w.neg,
        mag: w.low,
    })
}

// The lowest bits of x, as many as the type has.
fn low_bits(range: Range, x: u64) -> u64
    requires { IsRow range }
    ensures { (ty : ℕ) → Row ty range → result ≡ x % 2 ^ bits ty }
{
    x & (range.lowest + range.highest)
}

// A whole number wrapped to a type.
fn fold(range: Range, w: Whole) -> Num
    requires { IsRow range }
    ensures { (ty : ℕ) (z : ℤ) → Row ty range → Holds w z → value_of result ≡ wrap ty z }
{
    let neg = w.neg;
    let low = w.low;
    let l = limit(range, neg);
    let x = low_bits(range, low);
    if x <= l {
        return Num { neg, mag: x };
    }
    Num {
        neg: !neg,
        mag: range.lowest + range.highest - x + 1,
    }
}

// The word of 64 bits that holds a number, two's complement.
pub fn to_word(n: Num) -> u64
    ensures { result ≡ word_of (value_of n) }
{
    if n.neg {
        return n.mag.wrapping_neg();
    }
    n.mag
}

// The number that the lowest bits of w stand for in a type: a reading, an immediate, a word.
pub fn of_bits(range: Range, w: u64) -> Num
    requires { IsRow range }
    ensures { (ty : ℕ) → Row ty range → value_of result ≡ wrap ty (pos w) }
{
    fold(range, whole::kept(Num { neg: false, mag: w }))
}

// The number that four bytes stand for as an immediate of a type: an i32 for a signed type, a u32
// for the others.
pub fn immediate(ty: u8, w: u64) -> Num
    ensures { value_of result ≡ immediate ty w }
{
    if ty < 4 {
        return of_bits(range_of(2), w);
    }
    of_bits(range_of(6), w)
}

// The number that a word of a type holds.
fn from_word(ty: u8, w: u64) -> Num
    ensures { value_of result ≡ value_at ty w }
{
    if ty < 4 {
        return Num { neg: false, mag: w };
    }
    if w < 0x8000_0000_0000_0000 {
        return Num { neg: false, mag: w };
    }
    Num {
        neg: true,
        mag: w.wrapping_neg(),
    }
}

// Whether a number is a value of a type.
pub fn is_of_type(range: Range, n: Num) -> bool
    ensures { (ty : ℕ) → Row ty range → result ≡ fits ty (value_of n) }
{
    let m = n.mag;
    m <= limit(range, n.neg)
}

// The operation of a kind of statement or node, 2 to 6.
pub fn op_of(kind: u8) -> Op
    ensures { result ≡ op_of kind }
{
    match kind {
        2 => Op::Add,
        3 => Op::Sub,
        4 => Op::Mul,
        5 => Op::Div,
        _ => Op::Convert,
    }
}

// The word of a whole number wrapped to a type: its lowest bits, moved up by the range's depth
// before the cut and down again after it.
fn word_in(range: Range, w: Whole) -> u64
    requires { IsRow range }
    ensures { (ty : ℕ) (z : ℤ) → Row ty range → Holds w z → result ≡ word_of (wrap ty z) }
{
    let d = range.lowest;
    let v = to_word(Num {
        neg: w.neg,
        mag: w.low,
    });
    let t = low_bits(range, v.wrapping_add(d));
    t.wrapping_sub(d)
}

// One step on words whose type is from, wrapped to the type with this range, and whether it
// overflowed.
pub fn wrapped_words(op: Op, from: u8, range: Range, a: u64, b: u64) -> WrappedWord
    requires { IsRow range }
    ensures { (ty : ℕ) → Row ty range → (result.word ≡ word_of (wrap ty (exact_of_lem op (value_at from a) (value_at from b))))
        × (result.over ≡ overflows op ty (value_at from a) (value_at from b)) }
{
    let x = from_word(from, a);
    let y = from_word(from, b);
    let w = whole::exact(op, x, y);
    let over = overflowed(op, range, y, w);
    WrappedWord {
        word: word_in(range, w),
        over,
    }
}
