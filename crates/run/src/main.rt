// run RECIPE SHEET CHOICES LOG: runs a recipe on a sheet. It writes the records to LOG and prints
// `end E steps S records R`; or it prints `refused K` and writes nothing. A file that cannot be
// opened, read or written is named on standard error, and choices of more than 524,288 bytes, the
// limit's among them, are said there. The log has room for 43,690 records.
#![tactic(auto)]

use files::{answers, choice_file};
use std::env::Env;
use std::fs::Files;

// The run with the choice file's limit and choices.
fn run(rt: &(impl Env + Files + Print + Eprint), recipe: &[u8], sheet: &[u8], file: &[u8]) {
    let mut log: [u8; files::LOG] = files::zeros();
    let mut scratch = [0u64; interpreter::SCRATCH];
    let limit = choice_file::limit(file);
    let choices = choice_file::choices(file);
    match interpreter::run(recipe, sheet, limit, choices, &mut log, &mut scratch) {
        Ok(ran) => answers::save(rt, 4, &log, u8::from(ran.end), ran.steps, ran.records),
        Err(refusal) => answers::refused(rt, u8::from(refusal)),
    }
}

fn main(rt: HostRuntime) {
    if !files::has_arguments(&rt, 5, b"usage: run RECIPE SHEET CHOICES LOG\n") {
        return;
    }
    let mut recipe = [0u8; files::RECIPE];
    let mut sheet = [0u8; files::SHEET];
    let mut file: [u8; files::CHOICES] = files::zeros();
    let Some(n) = files::read_run(&rt, &mut recipe, &mut sheet, &mut file) else {
        return;
    };
    run(
        &rt,
        &recipe[..n.recipe],
        &sheet[..n.sheet],
        &file[..n.choices],
    );
}
