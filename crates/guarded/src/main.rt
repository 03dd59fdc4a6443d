// guarded RECIPE SHEET CHOICES LOG: runs a recipe on a sheet if the sheet passes under the recipe's
// condition. It writes the records to LOG and prints `end E steps S records R`; or it prints `held` or
// `refused K` and writes nothing. A file that cannot be opened, read or written is named on standard
// error, and choices of more than 524,288 bytes, the limit's among them, are said there. The log has
// room for 43,690 records.
#![tactic(auto)]

use files::{answers, choice_file};
use guard::Guarded;
use std::env::Env;
use std::fs::Files;

// The guarded run with the choice file's limit and choices.
fn guarded(rt: &(impl Env + Files + Print + Eprint), recipe: &[u8], sheet: &[u8], file: &[u8]) {
    let mut log: [u8; files::LOG] = files::zeros();
    let mut condition = [0u8; analysis::CONDITION];
    let mut scratch = [0u64; analysis::SCRATCH];
    let limit = choice_file::limit(file);
    let choices = choice_file::choices(file);
    let answer = guard::run(
        recipe,
        sheet,
        limit,
        choices,
        &mut log,
        &mut condition,
        &mut scratch,
    );
    match answer {
        Ok(Guarded::Ended(ran)) => {
            answers::save(rt, 4, &log, u8::from(ran.end), ran.steps, ran.records)
        }
        Ok(Guarded::Held) => answers::say(rt, b"held\n"),
        Err(refusal) => answers::refused(rt, u8::from(refusal)),
    }
}

fn main(rt: HostRuntime) {
    if !files::has_arguments(&rt, 5, b"usage: guarded RECIPE SHEET CHOICES LOG\n") {
        return;
    }
    let mut recipe = [0u8; files::RECIPE];
    let mut sheet = [0u8; files::SHEET];
    let mut file: [u8; files::CHOICES] = files::zeros();
    let Some(n) = files::read_run(&rt, &mut recipe, &mut sheet, &mut file) else {
        return;
    };
    guarded(
        &rt,
        &recipe[..n.recipe],
        &sheet[..n.sheet],
        &file[..n.choices],
    );
}
