// The run behind the filter: a program is run on an input only if the input passes under the
// program's condition. The analysis writes to a file of its own, whose bytes go to the filter and, once
// the run has ended, to the condition's output; so the output stays as it was unless the program is run.
#![tactic(auto)]

ghost use Rattle.std.specs.Prelude.{◌≡◌, ◌≤◌, length};
ghost use Rattle.model.specs.Condition.{condition_bytes};
ghost use Rattle.model.specs.Refusals.{ok};
ghost use Rattle.model.specs.Filter.{pass_number, filter_input};
ghost use Rattle.model.specs.Guarded.{guarded};
ghost use Rattle.guard.specs.Answers.{Ready, guarding, Guards};

use filter::Verdict;
use interpreter::Ran;
use refusals::Refusal;

// The input is held, or it passed and was run.
#[derive(Clone, Copy, Debug, PartialEq, Eq)]
pub enum Guarded {
    Ended(Ran),
    Held,
}

// An input that passed under the condition in a file: the run, and then the file to its output.
fn run_passed(
    program: &[u8],
    input: &[u8],
    limit: u32,
    choices: &[u8],
    log: &mut [u8],
    file: &[u8],
    condition: &mut [u8],
    scratch: &mut [u64],
) -> Result<Guarded, Refusal>
    requires { Ready program.now file.now condition.old scratch.old × (filter_input file.now input.now ≡ ok pass_number) }
    ensures { Guards program.now input.now limit choices.now
        (guarded program.now input.now limit choices.now log.old)
        result condition.old log.old scratch.old condition.new log.new scratch.new }
{
    let ran = interpreter::run(program, input, limit, choices, log, scratch)?;
    condition[..file.len()].copy_from_slice(file);
    Ok(Guarded::Ended(ran))
}

// With the program's condition in a file: the filter, and the run of an input that passes.
fn filter_and_run(
    program: &[u8],
    input: &[u8],
    limit: u32,
    choices: &[u8],
    log: &mut [u8],
    file: &[u8],
    condition: &mut [u8],
    scratch: &mut [u64],
) -> Result<Guarded, Refusal>
    requires { Ready program.now file.now condition.old scratch.old }
    ensures { Guards program.now input.now limit choices.now
        (guarded program.now input.now limit choices.now log.old)
        result condition.old log.old scratch.old condition.new log.new scratch.new }
{
    let verdict = filter::check(file, input)?;
    match verdict {
        Verdict::Held(_) => Ok(Guarded::Held),
        Verdict::Pass => run_passed(
            program, input, limit, choices, log, file, condition, scratch,
        ),
    }
}

// The three operations one after the other.
fn derive_and_run(
    program: &[u8],
    input: &[u8],
    limit: u32,
    choices: &[u8],
    log: &mut [u8],
    file: &mut [u8],
    condition: &mut [u8],
    scratch: &mut [u64],
) -> Result<Guarded, Refusal>
    requires { (condition_bytes ≤ length file.old) × (condition_bytes ≤ length condition.old) }
    ensures { Guards program.now input.now limit choices.now
        (guarding (length condition.old) (length scratch.old) program.now input.now limit
        choices.now log.old)
        result condition.old log.old scratch.old condition.new log.new scratch.new }
{
    let n = analysis::derive(program, file, scratch)?;
    filter_and_run(
        program,
        input,
        limit,
        choices,
        log,
        &file[..n],
        condition,
        scratch,
    )
}

// The program is run on the input only if the input passes under the program's condition. Held and
// every refusal leave the condition and the log as they were; the refusals 1 to 8 leave scratch as it
// was too, and no word of scratch past the analysis's changes.
pub fn run(
    program: &[u8],
    input: &[u8],
    limit: u32,
    choices: &[u8],
    log: &mut [u8],
    condition: &mut [u8],
    scratch: &mut [u64],
) -> Result<Guarded, Refusal>
    ensures { Guards program.now input.now limit choices.now
        (guarding (length condition.old) (length scratch.old) program.now input.now limit
        choices.now log.old)
        result condition.old log.old scratch.old condition.new log.new scratch.new }
{
    if condition.len() < analysis::CONDITION {
        return Err(Refusal::LentTooShort);
    }
    let mut file: [u8; analysis::CONDITION] = [0; analysis::CONDITION];
    derive_and_run(
        program, input, limit, choices, log, &mut file, condition, scratch,
    )
}
