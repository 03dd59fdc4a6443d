// The analysis: the case's number, and the listing of the condition of its recipe, or the refusal. A
// condition that is not byte for byte the stored one is said so.
use super::stored;
use files::answers::say;
use std::fs::Files;

fn refused(rt: &impl Print, number: u8) {
    let mut out = [0u8; listing::TEXT];
    let n = listing::refusal(number, &mut out);
    say(rt, &out[..n]);
}

// Whether this is the stored condition of the case's recipe.
fn is_stored(rt: &(impl Files + Eprint), i: usize, condition: &[u8]) -> bool {
    let mut derived = [0u8; files::CONDITION];
    let n = stored::read(rt, i, "derived", &mut derived);
    check::same(&derived[..n], condition)
}

// A condition of n bytes, which always stand in the output.
fn written(rt: &(impl Files + Print + Eprint), i: usize, condition: &[u8], n: usize) {
    let n = files::at_most(n, condition);
    let mut out = [0u8; listing::TEXT];
    let k = listing::text(&condition[..n], &mut out);
    say(rt, &out[..k]);
    if !is_stored(rt, i, &condition[..n]) {
        say(rt, b"not as stored\n");
    }
}

fn derive(rt: &(impl Files + Print + Eprint), i: usize, recipe: &[u8]) {
    let mut condition = [0u8; analysis::CONDITION];
    let mut scratch = [0u64; analysis::SCRATCH];
    match analysis::derive(recipe, &mut condition, &mut scratch) {
        Ok(n) => written(rt, i, &condition, n),
        Err(refusal) => refused(rt, u8::from(refusal)),
    }
}

pub(crate) fn show(rt: &(impl Files + Print + Eprint), i: usize, case: stored::Case) {
    if case.asks & stored::ANALYSING == 0 {
        return;
    }
    let mut recipe = [0u8; files::RECIPE];
    let n = stored::read(rt, i, "recipe", &mut recipe);
    let _ = println!(rt; "{i:03}");
    derive(rt, i, &recipe[..n]);
}
