// derive RECIPE CONDITION: writes the condition of a recipe and prints `conjuncts N`, or prints
// `refused K` and writes nothing. A file that cannot be read or written is named on standard error.
#![tactic(auto)]

use files::answers;
use std::env::Env;
use std::fs::Files;

// The first n bytes to the file that the second argument names; they begin with the number of
// conjuncts. They always stand in the output, and are at least 8.
fn put(rt: &(impl Env + Files + Print + Eprint), condition: &[u8], n: usize) {
    if condition.len() < 4 {
        return;
    }
    let count = bytes_le::u32_at(condition, 0);
    let k = files::at_most(n, condition);
    if files::write(rt, 2, &condition[..k]).is_some() {
        let _ = println!(rt; "conjuncts {count}");
    }
}

fn derive(rt: &(impl Env + Files + Print + Eprint), recipe: &[u8]) {
    let mut condition = [0u8; analysis::CONDITION];
    let mut scratch = [0u64; analysis::SCRATCH];
    match analysis::derive(recipe, &mut condition, &mut scratch) {
        Ok(n) => put(rt, &condition, n),
        Err(refusal) => answers::refused(rt, u8::from(refusal)),
    }
}

fn main(rt: HostRuntime) {
    if !files::has_arguments(&rt, 3, b"usage: derive RECIPE CONDITION\n") {
        return;
    }
    let mut recipe = [0u8; files::RECIPE];
    let Some(n) = files::read(&rt, 1, &mut recipe) else {
        return;
    };
    derive(&rt, &recipe[..n]);
}
