// The operations for callers in C and Rust, who link the archive that `rt lib` makes of this crate;
// include/gate.h declares them. A slice passes as a pointer and a length. An answer is one word: the
// refusal's number times 2^32, or what the operation gives. specs/Words.antt says what each word
// stands for.
#![tactic(auto)]

ghost use Rattle.std.specs.Prelude.{◌≡◌, ◌*◌, length};
ghost use Rattle.model.specs.Refusals.{mapped};
ghost use Rattle.model.specs.Failure.{verdict_number, verdict};
ghost use Rattle.refusals.specs.Answers.{number_of};
ghost use Rattle.analysis.specs.Deriving.{analysis_words, derivation};
ghost use Rattle.interpreter.specs.Answers.{run_lent};
ghost use Rattle.guard.specs.Answers.{guarding};
ghost use Rattle.widening.specs.Converting.{conversion};
ghost use Rattle.capi.specs.Words.{refusal_unit, answer_word, GateDerive, GateConvert, GateRun, GateGuarded};

use filter::Verdict;
use guard::Guarded;
use refusals::Refusal;

// The refusal's number stands in the upper 32 bits.
const REFUSAL: u64 = 0x1_0000_0000;

// The word of a sheet that is held by a run behind the gate: a run's end is at most 4.
const HELD: u64 = 5;

fn refusal(refusal: Refusal) -> u64
    ensures { result ≡ number_of refusal * refusal_unit }
{
    u64::from(u8::from(refusal)) * REFUSAL
}

// The words of scratch that serve every call.
#[unsafe(no_mangle)]
pub extern "C" fn gate_scratch() -> u64
    ensures { result ≡ analysis_words }
{
    analysis::SCRATCH as u64
}

// The condition of a recipe: the file's length.
#[unsafe(no_mangle)]
pub extern "C" fn gate_derive(recipe: &[u8], condition: &mut [u8], scratch: &mut [u64]) -> u64
    ensures { GateDerive (derivation (length condition.old) (length scratch.old) recipe.now)
        result condition.old condition.new scratch.old scratch.new }
{
    match analysis::derive(recipe, condition, scratch) {
        Ok(derived) => derived as u64,
        Err(not_derived) => refusal(not_derived),
    }
}

// The new form of an old recipe: the file's length.
#[unsafe(no_mangle)]
pub extern "C" fn gate_convert(old: &[u8], recipe: &mut [u8], scratch: &mut [u64]) -> u64
    ensures { GateConvert (conversion analysis_words (length recipe.old) (length scratch.old) old.now)
        result recipe.old recipe.new scratch.old scratch.new }
{
    if scratch.len() < analysis::SCRATCH {
        return refusal(Refusal::LentTooShort);
    }
    match widening::convert(old, recipe, scratch) {
        Ok(converted) => converted as u64,
        Err(not_converted) => refusal(not_converted),
    }
}

// The verdict on a sheet: 0 pass; 1 held, and 256 times the number of its cause.
#[unsafe(no_mangle)]
pub extern "C" fn gate_check(condition: &[u8], sheet: &[u8]) -> u64
    ensures { result ≡ answer_word (mapped verdict_number (verdict condition.now sheet.now)) }
{
    match filter::check(condition, sheet) {
        Ok(Verdict::Pass) => 0,
        Ok(Verdict::Held(cause)) => 1 + 256 * u64::from(cause),
        Err(not_checked) => refusal(not_checked),
    }
}

// A run: its end.
#[unsafe(no_mangle)]
pub extern "C" fn gate_run(
    recipe: &[u8],
    sheet: &[u8],
    limit: u32,
    choices: &[u8],
    log: &mut [u8],
    scratch: &mut [u64],
    steps: &mut u64,
    records: &mut u64,
) -> u64
    ensures { GateRun (run_lent analysis_words (length scratch.old) recipe.now sheet.now limit
        choices.now log.old)
        result log.old log.new scratch.old scratch.new steps.old steps.new
        records.old records.new }
{
    if scratch.len() < analysis::SCRATCH {
        return refusal(Refusal::LentTooShort);
    }
    match interpreter::run(recipe, sheet, limit, choices, log, scratch) {
        Ok(ran) => {
            *steps = ran.steps;
            *records = ran.records;
            u64::from(u8::from(ran.end))
        }
        Err(not_run) => refusal(not_run),
    }
}

// A run behind the gate: its end, or HELD where the sheet is held.
#[unsafe(no_mangle)]
pub extern "C" fn gate_guarded(
    recipe: &[u8],
    sheet: &[u8],
    limit: u32,
    choices: &[u8],
    log: &mut [u8],
    condition: &mut [u8],
    scratch: &mut [u64],
    steps: &mut u64,
    records: &mut u64,
) -> u64
    ensures { GateGuarded recipe.now sheet.now limit choices.now
        (guarding (length condition.old) (length scratch.old) recipe.now sheet.now limit
        choices.now log.old)
        result condition.old condition.new log.old log.new scratch.old scratch.new
        steps.old steps.new records.old records.new }
{
    match guard::run(recipe, sheet, limit, choices, log, condition, scratch) {
        Ok(Guarded::Ended(passed)) => {
            *steps = passed.steps;
            *records = passed.records;
            u64::from(u8::from(passed.end))
        }
        Ok(Guarded::Held) => HELD,
        Err(not_guarded) => refusal(not_guarded),
    }
}
