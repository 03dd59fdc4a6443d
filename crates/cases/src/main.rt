// The stored cases through the library: the outside vectors and the cases beside them. Each part has a
// headline and then, for each case that asks for it, what the part's module says. The stored files and
// what a case asks are in module `stored`.
#![tactic(auto)]

mod analysing;
mod converting;
mod filtering;
mod reading;
mod running;
mod stored;

use files::answers::say;
use std::fs::Files;

// How many cases are stored.
const CASES: usize = 339;

#[derive(Clone, Copy)]
enum Part {
    Reading,
    Analysing,
    Filtering,
    Running,
    Converting,
}

fn show(rt: &(impl Files + Print + Eprint), part: Part, i: usize) {
    let case = stored::of_number(rt, i);
    match part {
        Part::Reading => reading::show(rt, i, case),
        Part::Analysing => analysing::show(rt, i, case),
        Part::Filtering => filtering::show(rt, i, case),
        Part::Running => running::show(rt, i, case),
        Part::Converting => converting::show(rt, i, case),
    }
}

fn show_all(rt: &(impl Files + Print + Eprint), part: Part) {
    for i in 0..CASES {
        show(rt, part, i);
    }
}

fn main(rt: HostRuntime) {
    say(&rt, b"reading\n");
    show_all(&rt, Part::Reading);
    say(&rt, b"analysing\n");
    show_all(&rt, Part::Analysing);
    say(&rt, b"filtering\n");
    show_all(&rt, Part::Filtering);
    say(&rt, b"running\n");
    show_all(&rt, Part::Running);
    say(&rt, b"converting\n");
    show_all(&rt, Part::Converting);
}
