// gate CONDITION SHEET: whether the readings of a sheet pass a condition. It prints `pass`, `held` with
// the cause of the first failure, or `refused K`. A file that cannot be read is named on standard error.
#![tactic(auto)]

use files::answers;
use filter::Verdict;

fn main(rt: HostRuntime) {
    if !files::has_arguments(&rt, 3, b"usage: gate CONDITION SHEET\n") {
        return;
    }
    let mut condition = [0u8; files::CONDITION];
    let Some(n) = files::read(&rt, 1, &mut condition) else {
        return;
    };
    let mut sheet = [0u8; files::SHEET];
    let Some(k) = files::read(&rt, 2, &mut sheet) else {
        return;
    };
    match filter::check(&condition[..n], &sheet[..k]) {
        Ok(Verdict::Pass) => answers::say(&rt, b"pass\n"),
        Ok(Verdict::Held(cause)) => answers::held(&rt, cause),
        Err(refusal) => answers::refused(&rt, u8::from(refusal)),
    }
}
