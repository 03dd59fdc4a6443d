// The listing program: reads a recipe on standard input and prints the listing of the condition that
// the analysis writes for it, or the refusal.
#![tactic(auto)]

use files::answers::say;

fn refused(rt: &impl Print, number: u8) {
    let mut out = [0u8; listing::TEXT];
    let k = listing::refusal(number, &mut out);
    say(rt, &out[..k]);
}

// A condition of n bytes, which always stand in the output.
fn written(rt: &impl Print, condition: &[u8], n: usize) {
    let n = files::at_most(n, condition);
    let mut out = [0u8; listing::TEXT];
    let k = listing::text(&condition[..n], &mut out);
    say(rt, &out[..k]);
}

fn listed(rt: &impl Print, recipe: &[u8]) {
    let mut condition = [0u8; analysis::CONDITION];
    let mut scratch = [0u64; analysis::SCRATCH];
    match analysis::derive(recipe, &mut condition, &mut scratch) {
        Ok(n) => written(rt, &condition, n),
        Err(refusal) => refused(rt, u8::from(refusal)),
    }
}

fn main(rt: HostRuntime) {
    let mut recipe = [0u8; files::RECIPE];
    let n = files::read_full(&mut rt.reader(), &mut recipe);
    listed(&rt, &recipe[..n]);
}
