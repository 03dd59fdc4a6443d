// The gate on the case's sheet, under the condition that comes with the case and under the recipe's
// own, each where it is asked: a line with the verdict, and with the cause of a hold.
use super::stored;
use super::stored::Case;
use files::answers;
use filter::Verdict;
use std::fs::Files;

// The verdict under the condition of a kind.
fn filter(rt: &(impl Files + Print + Eprint), i: usize, kind: &str, condition: &[u8]) {
    let mut sheet = [0u8; files::SHEET];
    let n = stored::read(rt, i, "sheet", &mut sheet);
    let verdict = filter::check(condition, &sheet[..n]);
    let _ = print!(rt; "{i:03} {kind} ");
    match verdict {
        Ok(Verdict::Pass) => answers::say(rt, b"pass\n"),
        Ok(Verdict::Held(cause)) => answers::held(rt, cause),
        Err(refusal) => answers::refused(rt, u8::from(refusal)),
    }
}

fn show_kind(rt: &(impl Files + Print + Eprint), i: usize, kind: &str) {
    let mut condition = [0u8; files::CONDITION];
    let n = stored::read(rt, i, kind, &mut condition);
    filter(rt, i, kind, &condition[..n]);
}

pub(crate) fn show(rt: &(impl Files + Print + Eprint), i: usize, case: Case) {
    if case.asks & stored::MADE_UP != 0 {
        show_kind(rt, i, "condition");
    }
    if case.asks & stored::DERIVED != 0 {
        show_kind(rt, i, "derived");
    }
}
