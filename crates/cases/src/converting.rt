// The converter: a line with the length of the new recipe, or the refusal. A recipe that is not byte for byte the
// stored one is said so, and so is an output that has changed behind it.
use super::stored;
use files::answers;
use std::fs::Files;

// What every byte of the output is before the conversion.
const UNTOUCHED: u8 = 165;

// Whether the output behind its first bytes is as it was lent.
fn is_untouched(output: &[u8], from: usize) -> bool {
    output.iter().skip(from).all(|byte| *byte == UNTOUCHED)
}

fn print_rest(rt: &impl Print, i: usize, output: &[u8], from: usize) {
    if !is_untouched(output, from) {
        let _ = println!(rt; "{i:03} the output behind the recipe has changed");
    }
}

// Whether this is the stored new recipe of the case.
fn is_stored(rt: &(impl Files + Eprint), i: usize, recipe: &[u8]) -> bool {
    let mut converted = [0u8; files::RECIPE];
    let n = stored::read(rt, i, "converted", &mut converted);
    check::same(&converted[..n], recipe)
}

// A recipe of n bytes, which always stand in the output.
fn written(rt: &(impl Files + Print + Eprint), i: usize, output: &[u8], n: usize) {
    let _ = println!(rt; "{i:03} converted {n}");
    let n = files::at_most(n, output);
    if !is_stored(rt, i, &output[..n]) {
        let _ = println!(rt; "{i:03} not as stored");
    }
    print_rest(rt, i, output, n);
}

fn convert(rt: &(impl Files + Print + Eprint), i: usize, old: &[u8]) {
    let mut output = [UNTOUCHED; widening::PROGRAM];
    let mut scratch = [0u64; widening::SCRATCH];
    match widening::convert(old, &mut output, &mut scratch) {
        Ok(n) => written(rt, i, &output, n),
        Err(refusal) => {
            let _ = print!(rt; "{i:03} ");
            answers::refused(rt, u8::from(refusal));
            print_rest(rt, i, &output, 0);
        }
    }
}

pub(crate) fn show(rt: &(impl Files + Print + Eprint), i: usize, case: stored::Case) {
    if case.asks & stored::CONVERTING == 0 {
        return;
    }
    let mut old = [0u8; files::RECIPE];
    let n = stored::read(rt, i, "old", &mut old);
    convert(rt, i, &old[..n]);
}
