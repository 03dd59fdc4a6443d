// The reader of the input file (document 01: sheet): one pass over the pairs that carries the place
// where the next part begins, and one over the readings of fields that are narrower than their type;
// a field's readings as a part of the caller's slice; one reading as a number. The fields come as the
// bytes of their table, as it lies in a program or a condition. What is read is a value of its own.
#![tactic(auto)]

ghost use Rattle.std.specs.Prelude.{◌≡◌, ℕ, ◌+◌, ◌-◌, ◌*◌, ◌/◌, ◌^◌, ◌≤◌, ◌<◌, length};
ghost use Rattle.arith.specs.Types.{Row, IsRow};
ghost use Rattle.arith.specs.Whole.{value_of};
ghost use Rattle.model.specs.Sizes.{most_readings, field_size, over_bits};
ghost use Rattle.model.specs.Lists.{every};
ghost use Rattle.model.specs.Refusals.{mapped};
ghost use Rattle.model.specs.Bytes.{pair_at, pairs_at};
ghost use Rattle.model.specs.Fields.{Field, entry_of, bits_of_lem, types_in, fields_in};
ghost use Rattle.model.specs.Input.{width, bits_at, reading_at_lem, in_bits_lem, bits_right_lem, read_input};
ghost use Rattle.input.specs.Answers.{InputFile, file_of, input_answer, file_answer, InputIsRead, WidthIs, PartInside, field_part, field_readings};
ghost use Rattle.input.specs.Bits.{LimitsAre, part_readings};
ghost use Rattle.input.specs.FirstWrong.{RightBefore, PartIs, PairsAre};

use arith::{Num, Range};
use refusals::Refusal;
use std::marker::Model;

// the bytes of a field's entry: its type, and the number of its bits added to OVER_BITS
const FIELD_SIZE: usize = fields::SIZE;

const OVER_BITS: u8 = fields::OVER_BITS;

// the most readings of a field
const MOST_READINGS: usize = 128;

// the first code of a signed type, and how many widths types have
const SIGNED: u8 = 4;

const WIDTHS: u8 = 4;

// An input that is read: the table of its fields, and its bytes. A proof sees both.
#[derive(Clone, Drop)]
pub struct Input<'t, 'a> {
    fields: &'t [u8],
    bytes: &'a [u8],
}

impl<'t, 'a> Model for Input<'t, 'a> {
    ghost Value = { InputFile };

    ghost view = { λ i. file_of i.fields.now i.bytes.now };

    ghost invariant = { λ i. InputIsRead i.fields.now i.bytes.now };
}

// How far what a field's bits hold goes below 0, and how far above.
#[derive(Clone, Copy)]
struct Limits {
    low: u64,
    high: u64,
}

// The row of a type, by any byte as its code: those from SIGNED on are signed.
fn row_of(ty: u8) -> Range
    ensures { Row ty result }
{
    if ty < SIGNED {
        return arith::step_range(ty);
    }
    arith::step_range(SIGNED + ty % WIDTHS)
}

// How many bytes a reading of a type has.
fn width_of(ty: u8) -> usize
    ensures { WidthIs ty result }
{
    (row_of(ty).bits / 8) as usize
}

// Where the part of the pair at a place ends, if the pair is right: it begins at next, is whole readings, at
// most 128, and stays inside the file.
fn part_end(ty: u8, input: &[u8], at: usize, next: usize) -> Option<usize>
    requires { at + 8 ≤ length input.now }
    ensures { PartIs ty (pair_at input.now at) next (length input.now) result }
{
    let offset = bytes_le::u32_at(input, at) as usize;
    let len = bytes_le::u32_at(input, at + 4) as usize;
    let w = width_of(ty);
    if offset != next {
        return None;
    }
    if len % w != 0 {
        return None;
    }
    if MOST_READINGS * w < len {
        return None;
    }
    if input.len() < offset + len {
        return None;
    }
    Some(offset + len)
}

// The first pair that is wrong, as an error, else where the last part ends: a pair has all its tests before
// the next is looked at.
#[tactic(auto, using(crate::proofs::Search::wrong_named))]
fn first_wrong(fields: &[u8], input: &[u8]) -> Result<usize, usize>
    ensures { PairsAre (types_in (fields_in fields.now)) input.now result }
{
    let count = fields.len() / FIELD_SIZE;
    if input.len() / 8 < count {
        return Err(0);
    }
    let mut next = 8 * count;
    for f in 0..count {
        let Some(end) = part_end(fields[FIELD_SIZE * f], input, 8 * f, next) else {
            return Err(f);
        };
        next = end;
    }
    Ok(next)
}

// Two to the power of a number of bits, fewer than a word has.
fn power(bits: u8) -> u64
    requires { bits < 64 }
    ensures { (result ≡ 2 ^ bits) × (1 ≤ result) }
{
    1 << bits
}

// The limits of what so many bits hold, fewer than a word has: two's complement for a signed type.
fn limits_of(ty: u8, bits: u8) -> Limits
    requires { bits < 64 }
    ensures { LimitsAre ty bits result }
{
    if ty < SIGNED {
        let high = power(bits) - 1;
        return Limits { low: 0, high };
    }
    if bits == 0 {
        return Limits { low: 1, high: 0 };
    }
    // one of them is the sign
    let digits = bits - 1;
    let half = power(digits);
    let high = half - 1;
    Limits { low: half, high }
}

// Whether a number lies between the limits.
fn is_between(limits: Limits, n: Num) -> bool
    ensures { (F : Field) → LimitsAre F.ty (bits_of_lem F) limits → result ≡ in_bits_lem F (value_of n) }
{
    let m = n.mag;
    if n.neg {
        return m <= limits.low;
    }
    m <= limits.high
}

// Whether a field's bits hold the readings of its part. A field of its type's width is passed over:
// what is read of a type is never wider.
fn part_in_bits(ty: u8, size: u8, part: &[u8]) -> bool
    ensures { result ≡ every (in_bits_lem (entry_of ty size)) (part_readings ty part.now) }
{
    let range = row_of(ty);
    let bits = size.saturating_sub(OVER_BITS);
    if range.bits <= bits as u32 {
        return true;
    }
    let limits = limits_of(ty, bits);
    let w = (range.bits / 8) as usize;
    let count = part.len() / w;
    for k in 0..count {
        let n = reading_by_row(range, part, k);
        if !is_between(limits, n) {
            return false;
        }
    }
    true
}

// The part of a field, where it stands in the file.
fn part_of(input: &[u8], field: usize) -> &[u8]
    requires { PartInside input.now field }
    ensures { result.now ≡ field_part input.now field }
{
    let start = bytes_le::u32_at(input, 8 * field) as usize;
    let len = bytes_le::u32_at(input, 8 * field + 4) as usize;
    let end = start + len;
    &input[start..end]
}

// Whether the bits of each field hold its readings, where every pair is right.
fn bits_right(fields: &[u8], input: &[u8]) -> bool
    requires { RightBefore (types_in (fields_in fields.now)) input.now (length fields.now / field_size) }
    ensures { result ≡ bits_right_lem (fields_in fields.now) input.now
        (pairs_at input.now 0 (length (fields_in fields.now))) }
{
    let count = fields.len() / FIELD_SIZE;
    for f in 0..count {
        let ty = fields[FIELD_SIZE * f];
        let size = fields[FIELD_SIZE * f + 1];
        if !part_in_bits(ty, size, part_of(input, f)) {
            return false;
        }
    }
    true
}

// The input, if it has its form for the fields of this table.
pub fn read<'t, 'a>(fields: &'t [u8], input: &'a [u8]) -> Result<Input<'t, 'a>, Refusal>
    ensures form { input_answer result ≡ mapped (λ I. tt {0}) (read_input (fields_in fields.now) input.now) }
    ensures file { file_answer result ≡ mapped (λ I. file_of fields.now input.now) (read_input (fields_in fields.now) input.now) }
{
    let Ok(end) = first_wrong(fields, input) else {
        return Err(Refusal::WrongInput);
    };
    if end != input.len() {
        return Err(Refusal::WrongInput);
    }
    if !bits_right(fields, input) {
        return Err(Refusal::WrongInput);
    }
    Ok(Input {
        fields,
        bytes: input,
    })
}

impl<'t, 'a> Input<'t, 'a> {
    // The input of bytes that are known to be in their form for the fields of a table.
    pub fn in_form(fields: &'t [u8], bytes: &'a [u8]) -> Input<'t, 'a>
        requires { InputIsRead fields.now bytes.now }
        ensures { result ≡ file_of fields.now bytes.now }
    {
        Input { fields, bytes }
    }

    // The table of its fields.
    pub fn fields(&self) -> &'t [u8]
        ensures table { result.now ≡ self.now.fields }
        ensures read { InputIsRead self.now.fields self.now.bytes }
    {
        self.fields
    }

    // The readings of a field, as a part of the caller's bytes.
    pub fn readings(&self, field: usize) -> &'a [u8]
        requires { field < length self.now.fields / field_size }
        ensures { result.now ≡ field_part self.now.bytes field }
    {
        part_of(self.bytes, field)
    }

    // How many readings a field has.
    pub fn count(&self, field: usize) -> usize
        requires { field < length self.now.fields / field_size }
        ensures { (result ≡ length (field_readings self.now.fields self.now.bytes field)) × (result ≤ most_readings) }
    {
        let fields = self.fields;
        let w = width_of(fields[FIELD_SIZE * field]);
        let len = bytes_le::u32_at(self.bytes, 8 * field + 4) as usize;
        len / w
    }
}

// The bytes of a reading as a number, as many as its type has.
fn bits_at(range: Range, part: &[u8], at: usize) -> u64
    requires { IsRow range × (at + range.bits / 8 ≤ length part.now) }
    ensures { (ty : ℕ) → Row ty range → result ≡ bits_at ty part.now at }
{
    let bits = range.bits;
    match bits {
        8 => part[at] as u64,
        16 => bytes_le::u16_at(part, at),
        32 => bytes_le::u32_at(part, at),
        _ => bytes_le::u64_at(part, at),
    }
}

// The reading with a number in a field's part, by the row of the field's type.
pub fn reading_by_row(range: Range, part: &[u8], k: usize) -> Num
    requires { IsRow range × ((k + 1) * (range.bits / 8) ≤ length part.now) }
    ensures { (ty : ℕ) → Row ty range → value_of result ≡ reading_at_lem ty part.now (k * width ty) }
{
    let w = (range.bits / 8) as usize;
    let at = k * w;
    arith::of_bits(range, bits_at(range, part, at))
}

// The reading with a number in a field's part.
pub fn reading(ty: u8, part: &[u8], k: usize) -> Num
    requires { (ty < 8) × ((k + 1) * width ty ≤ length part.now) }
    ensures { value_of result ≡ reading_at_lem ty part.now (k * width ty) }
{
    reading_by_row(arith::step_range(ty), part, k)
}
