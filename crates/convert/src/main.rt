// convert OLD NEW: writes the recipe of the old form in the new one, each field with all bits of its type, and
// prints nothing; or prints `refused K` and writes nothing. A file that cannot be read or written is named on
// standard error.
#![tactic(auto)]

use files::answers;
use std::env::Env;
use std::fs::Files;

// The first n bytes to the file that the second argument names. They always stand in the output.
fn put(rt: &(impl Env + Files + Eprint), recipe: &[u8], n: usize) {
    let k = files::at_most(n, recipe);
    files::write(rt, 2, &recipe[..k]);
}

fn convert(rt: &(impl Env + Files + Print + Eprint), old: &[u8]) {
    let mut recipe = [0u8; widening::PROGRAM];
    let mut scratch = [0u64; widening::SCRATCH];
    match widening::convert(old, &mut recipe, &mut scratch) {
        Ok(n) => put(rt, &recipe, n),
        Err(refusal) => answers::refused(rt, u8::from(refusal)),
    }
}

fn main(rt: HostRuntime) {
    if !files::has_arguments(&rt, 3, b"usage: convert OLD NEW\n") {
        return;
    }
    let mut old = [0u8; files::RECIPE];
    let Some(n) = files::read(&rt, 1, &mut old) else {
        return;
    };
    convert(&rt, &old[..n]);
}
