// The run: a line with the end, the steps and the records, or the refusal; where there are records, a
// line with their bytes; and, where the case asks for it, a line for each as a note. Behind its records
// the log is to be as it was lent.
ghost use Rattle.std.specs.Prelude.{◌+◌, ◌≤◌, length};

use super::stored;
use super::stored::Case;
use files::{answers, choice_file};
use interpreter::Ran;
use refusals::Refusal;
use std::fs::Files;

// What every byte of the log is before the run.
const UNTOUCHED: u8 = 165;
// The longest log that a case lends.
const LOG: usize = 120000;
// The longest choice file of a case.
const CHOICES: usize = 1024;
// A record's bytes.
const RECORD: usize = files::RECORD;

// The bytes of the log's first records in hexadecimal.
fn print_records(rt: &impl Print, log: &[u8], records: u64) {
    for record in log.chunks(RECORD).take(records as usize) {
        for byte in record {
            let _ = print!(rt; "{byte:02x}");
        }
    }
}

// Whether the log behind its first records is as it was lent.
fn is_untouched(log: &[u8], records: u64) -> bool {
    log.chunks(RECORD)
        .skip(records as usize)
        .all(|record| record.iter().all(|byte| *byte == UNTOUCHED))
}

// The type of the variable of the site with a label.
fn site_type(recipe: &[u8], label: usize) -> u8 {
    let Ok(program) = program::read(recipe) else {
        return 8;
    };
    if program.statements() <= label {
        return 8;
    }
    let site = program.statement(label);
    program.variable_type(site.a as usize)
}

// A record as a note: label, value, mark.
fn note(rt: &impl Print, i: usize, recipe: &[u8], log: &[u8], at: usize)
    requires { at + 12 ≤ length log.now }
{
    let label = bytes_le::u16_at(log, at);
    let word = bytes_le::u64_at(log, at + 4);
    let mark = log[at + 2];
    if site_type(recipe, label as usize) < 4 {
        let _ = println!(rt; "{i:03} note {label} {word} mark {mark}");
    } else {
        let value = word.cast_signed();
        let _ = println!(rt; "{i:03} note {label} {value} mark {mark}");
    }
}

fn notes(rt: &impl Print, i: usize, recipe: &[u8], log: &[u8], records: u64) {
    let n = log.len() / RECORD;
    for k in 0..n.min(records as usize) {
        note(rt, i, recipe, log, RECORD * k);
    }
}

// The records of a run and whether the log behind them is as it was.
fn print_log(rt: &impl Print, i: usize, log: &[u8], records: u64) {
    if 0 < records {
        let _ = print!(rt; "{i:03} log ");
        print_records(rt, log, records);
        answers::say(rt, b"\n");
    }
    if !is_untouched(log, records) {
        let _ = println!(rt; "{i:03} the log behind the records has changed");
    }
}

fn print(
    rt: &impl Print,
    i: usize,
    case: Case,
    recipe: &[u8],
    log: &[u8],
    ran: Result<Ran, Refusal>,
) {
    let _ = print!(rt; "{i:03} ");
    match ran {
        Ok(ran) => {
            answers::ended(rt, u8::from(ran.end), ran.steps, ran.records);
            print_log(rt, i, log, ran.records);
            if case.asks & stored::NOTES != 0 {
                notes(rt, i, recipe, log, ran.records);
            }
        }
        Err(refusal) => {
            answers::refused(rt, u8::from(refusal));
            print_log(rt, i, log, 0);
        }
    }
}

fn limit(case: Case, file: &[u8]) -> u32 {
    if case.asks & stored::ZERO_LIMIT != 0 {
        return 0;
    }
    choice_file::limit(file)
}

fn run(
    rt: &impl Print,
    i: usize,
    case: Case,
    recipe: &[u8],
    sheet: &[u8],
    file: &[u8],
    log: &mut [u8],
    scratch: &mut [u64],
) {
    let limit = limit(case, file);
    let choices = choice_file::choices(file);
    let ran = interpreter::run(recipe, sheet, limit, choices, log, scratch);
    print(rt, i, case, recipe, log, ran);
}

fn run_with_log(rt: &impl Print, i: usize, case: Case, recipe: &[u8], sheet: &[u8], file: &[u8]) {
    let mut log = [UNTOUCHED; LOG];
    let mut scratch = [0u64; interpreter::SCRATCH];
    let n = files::at_most(case.log, &log);
    run(
        rt,
        i,
        case,
        recipe,
        sheet,
        file,
        &mut log[..n],
        &mut scratch,
    );
}

pub(crate) fn show(rt: &(impl Files + Print + Eprint), i: usize, case: Case) {
    if case.asks & stored::RUNNING == 0 {
        return;
    }
    let mut recipe = [0u8; files::RECIPE];
    let mut sheet = [0u8; files::SHEET];
    let mut file = [0u8; CHOICES];
    let n = stored::read(rt, i, "recipe", &mut recipe);
    let k = stored::read(rt, i, "sheet", &mut sheet);
    let c = stored::read(rt, i, "choices", &mut file);
    run_with_log(rt, i, case, &recipe[..n], &sheet[..k], &file[..c]);
}
