// The filter (document 01: gate): whether the readings of an input pass a condition, or why the first
// combination that does not pass does not. The condition is read, then the input; the readings are decoded
// once. Two passes go over all conjuncts: the first works out how many combinations each has, which tells
// of blank fields (15) and of too many combinations (14); the second evaluates, and only where the first
// refuses nothing.
#![tactic(auto)]

ghost use Rattle.std.specs.Prelude.{◌≡◌, ℕ, ◌*◌, ◌/◌, ◌≤◌, ◌<◌, length};
ghost use Rattle.arith.specs.Types.{Row};
ghost use Rattle.model.specs.Sizes.{field_size, most_fields, most_readings};
ghost use Rattle.model.specs.Fields.{fields_in};
ghost use Rattle.model.specs.Input.{Input, width, reading_at_lem};
ghost use Rattle.model.specs.Failure.{verdict};
ghost use Rattle.condition.specs.Answers.{conjuncts_of};
ghost use Rattle.plan.specs.Readings.{signed_at, Few, Lent, Counted, Decoded, Taken};
ghost use Rattle.filter.specs.Verdict.{verdict_of, Told, judged, Triable, FirstFails, InputOf, Judgeable, Judges};
ghost use Rattle.filter.specs.Decoding.{input_in, Filled, ReadingFits, ReadingsFit, Decodable, FieldPut};

use arith::{Cause, Range};
use condition::Condition;
use refusals::Refusal;

// The input passes, or is held, and why it is.
#[derive(Clone, Copy, Debug, PartialEq, Eq)]
pub enum Verdict {
    Pass,
    Held(Cause),
}

// The bytes of the entry of a field.
const FIELD_SIZE: usize = fields::SIZE;
// The most fields of a condition.
const FIELDS: usize = 32;
// The most fields of a small one.
const FEW: usize = 4;
// The most readings of a field.
const READINGS: usize = 128;
// Places for the readings of a small condition's fields.
const SMALL_ROOM: usize = READINGS * FEW;
// Places for the readings of any condition's fields.
const ROOM: usize = READINGS * FIELDS;
// The most combinations of a conjunct.
const LIMIT: usize = 1_048_576;

// ---- the readings

// The reading with number k of a field's part, put to a place, by the row of the field's type.
fn put_reading(range: Range, part: &[u8], k: usize, at: usize, mags: &mut [u64], negs: &mut [bool])
    requires { ReadingFits range part.now k at mags.old negs.old }
    ensures { (ty : ℕ) → Row ty range → Taken at (reading_at_lem ty part.now (k * width ty))
        (signed_at mags.old negs.old) (signed_at mags.new negs.new) }
{
    let z = input::reading_by_row(range, part, k);
    mags[at] = z.mag;
    negs[at] = z.neg;
}

// The first n readings of a field's part, put to the places from one on.
fn put_readings(ty: u8, part: &[u8], n: usize, from: usize, mags: &mut [u64], negs: &mut [bool])
    requires { ReadingsFit ty part.now n from mags.old negs.old }
    ensures { Filled (λ k. reading_at_lem ty part.now (k * width ty)) from n (signed_at mags.old negs.old)
        (signed_at mags.new negs.new) }
{
    let range = arith::range_of(ty);
    for k in 0..n {
        put_reading(range, part, k, from + k, mags, negs);
    }
}

// The readings of a field, put to the places from READINGS * f on, and how many they are; none of a field
// past those that are listed, of which the caller gives the number. There is room for these.
fn put_field(
    input: &input::Input,
    listed: usize,
    f: usize,
    mags: &mut [u64],
    negs: &mut [bool],
) -> usize
    requires { Decodable input.now.fields mags.old negs.old × (f < most_fields) × (listed ≡ length input.now.fields / field_size) }
    ensures { FieldPut result (input_in (fields_in input.now.fields) input.now.bytes f) f (signed_at mags.old negs.old)
        (signed_at mags.new negs.new) }
{
    if listed <= f {
        return 0;
    }
    let fields = input.fields();
    let part = input.readings(f);
    let n = input.count(f);
    put_readings(fields[FIELD_SIZE * f], part, n, READINGS * f, mags, negs);
    n
}

// The readings of all fields, where there is room for those that are listed. Counts, magnitudes and signs are
// three slices, as the evaluator takes them.
fn decode(input: &input::Input, counts: &mut [usize], mags: &mut [u64], negs: &mut [bool])
    requires { Decodable input.now.fields mags.old negs.old × (length counts.old ≡ most_fields) }
    ensures { Lent counts.new mags.new negs.new
        × Decoded (input_in (fields_in input.now.fields) input.now.bytes) counts.new mags.new negs.new }
{
    let listed = input.fields().len() / FIELD_SIZE;
    for f in 0..FIELDS {
        counts[f] = put_field(input, listed, f, mags, negs);
    }
}

// ---- the conjuncts

// What the numbers of combinations tell of all conjuncts. A blank field comes first: it is looked for
// to the last conjunct, also where one before has too many combinations.
fn products(condition: &Condition, counts: &[usize]) -> Result<(), Refusal>
    requires { Few counts.now }
    ensures { (I : Input) → Counted I counts.now → Told result I (conjuncts_of condition.now) }
{
    let n = condition.conjuncts();
    let mut many = false;
    for i in 0..n {
        let part = condition.conjunct(i);
        let p = evaluator::product(part, counts);
        if p == 0 {
            return Err(Refusal::BlankField);
        }
        if LIMIT < p {
            many = true;
        }
    }
    if many {
        return Err(Refusal::TooManyCombinations);
    }
    Ok(())
}

// Why the first conjunct that does not hold does not, or that all do.
fn try_all(
    condition: &Condition,
    counts: &[usize],
    mags: &[u64],
    negs: &[bool],
) -> Result<(), Cause>
    requires { Triable condition.now counts.now mags.now negs.now }
    ensures { FirstFails result condition.now counts.now mags.now negs.now }
{
    let n = condition.conjuncts();
    for place in 0..n {
        let part = condition.conjunct(place);
        evaluator::first_failure(part, counts, mags, negs)?;
    }
    Ok(())
}

// ---- the verdict

// Of a condition, with the readings of an input: nothing is evaluated before all numbers of combinations
// are known.
fn judge(
    condition: &Condition,
    counts: &[usize],
    mags: &[u64],
    negs: &[bool],
) -> Result<Verdict, Refusal>
    requires { Lent counts.now mags.now negs.now }
    ensures { (I : Input) → Decoded I counts.now mags.now negs.now
        → verdict_of result ≡ judged I (conjuncts_of condition.now) }
{
    products(condition, counts)?;
    match try_all(condition, counts, mags, negs) {
        Ok(()) => Ok(Verdict::Pass),
        Err(cause) => Ok(Verdict::Held(cause)),
    }
}

// Of a condition and an input, with room for the readings.
fn judge_in(
    condition: &Condition,
    input: &input::Input,
    counts: &mut [usize],
    mags: &mut [u64],
    negs: &mut [bool],
) -> Result<Verdict, Refusal>
    requires { Judgeable condition.now input.now counts.old mags.old negs.old }
    ensures { Judges result condition.now input.now.bytes }
{
    decode(input, counts, mags, negs);
    judge(condition, counts, mags, negs)
}

// With so many places of its own for the readings.
fn judge_with<const PLACES: usize>(
    condition: &Condition,
    input: &input::Input,
) -> Result<Verdict, Refusal>
    requires { InputOf condition.now input.now.fields
        × (most_readings * (length input.now.fields / field_size) ≤ PLACES) × (PLACES ≤ most_readings * most_fields) }
    ensures { Judges result condition.now input.now.bytes }
{
    let mut counts: [usize; FIELDS] = [0; FIELDS];
    let mut mags: [u64; PLACES] = [0; PLACES];
    let mut negs: [bool; PLACES] = [false; PLACES];
    judge_in(condition, input, &mut counts, &mut mags, &mut negs)
}

// Of a condition and an input. The fewer places there are, the less is to be cleared.
fn judge_input(condition: &Condition, input: &input::Input) -> Result<Verdict, Refusal>
    requires { InputOf condition.now input.now.fields }
    ensures { Judges result condition.now input.now.bytes }
{
    if input.fields().len() / FIELD_SIZE <= FEW {
        return judge_with::<SMALL_ROOM>(condition, input);
    }
    judge_with::<ROOM>(condition, input)
}

// The verdict on two byte strings.
pub fn check(condition: &[u8], input: &[u8]) -> Result<Verdict, Refusal>
    ensures { verdict_of result ≡ verdict condition.now input.now }
{
    let condition = condition::read(condition)?;
    let input = input::read(condition.fields(), input)?;
    judge_input(&condition, &input)
}
