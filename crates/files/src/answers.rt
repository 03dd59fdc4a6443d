// The lines that the programs print. One that cannot be written is lost.
use arith::Cause;
use std::env::Env;
use std::fs::Files;

pub fn say(rt: &impl Print, text: &[u8]) {
    let _ = rt.write_all(text);
}

// A refusal's number.
pub fn refused(rt: &impl Print, k: u8) {
    let _ = println!(rt; "refused {k}");
}

// That a sheet is held, and the cause of its first failure.
pub fn held(rt: &impl Print, cause: Cause) {
    let why = match cause {
        Cause::Above => "too big",
        Cause::Below => "too small",
        Cause::NoDivisor => "no divisor",
    };
    let _ = println!(rt; "held {why}");
}

// How a run ended.
pub fn ended(rt: &impl Print, end: u8, steps: u64, records: u64) {
    let _ = println!(rt; "end {end} steps {steps} records {records}");
}

// The records of a run to the file that the i-th argument names, and how the run ended. They always
// stand in the log, which has room for RECORDS.
pub fn save(
    rt: &(impl Env + Files + Print + Eprint),
    i: usize,
    log: &[u8],
    end: u8,
    steps: u64,
    records: u64,
) {
    if records > super::RECORDS as u64 {
        return;
    }
    let k = super::at_most(super::RECORD * (records as usize), log);
    if super::write(rt, i, &log[..k]).is_some() {
        ended(rt, end, steps, records);
    }
}
