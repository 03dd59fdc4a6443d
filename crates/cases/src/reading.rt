// The three readers: a line for the recipe, the condition and the sheet, with the counts or the
// refusal. A sheet is read for the fields of the recipe, and again for those of the condition, where
// these are read.
use super::stored;
use condition::Condition;
use files::answers;
use program::Program;
use std::fs::Files;

fn begin(rt: &impl Print, i: usize, what: &str) {
    let _ = print!(rt; "{i:03} {what} ");
}

// Whether a sheet has its form for these fields.
fn sheet_line(rt: &(impl Files + Print + Eprint), i: usize, what: &str, fields: &[u8]) {
    let mut sheet = [0u8; files::SHEET];
    let n = stored::read(rt, i, "sheet", &mut sheet);
    begin(rt, i, what);
    match input::read(fields, &sheet[..n]) {
        Ok(_) => answers::say(rt, b"read\n"),
        Err(refusal) => answers::refused(rt, u8::from(refusal)),
    }
}

fn say_tables(rt: &impl Print, program: &Program) {
    let fields = program.field_count();
    let variables = program.variables();
    let trays = program.arrays();
    let statements = program.statements();
    let _ = println!(rt;
        "fields {fields} variables {variables} trays {trays} statements {statements}"
    );
}

fn say_counts(rt: &impl Print, condition: &Condition) {
    let conjuncts = condition.conjuncts();
    let fields = condition.fields().len() / fields::SIZE;
    let _ = println!(rt; "conjuncts {conjuncts} fields {fields}");
}

fn recipe_lines(rt: &(impl Files + Print + Eprint), i: usize, recipe: &[u8]) {
    begin(rt, i, "recipe");
    match program::read(recipe) {
        Ok(read) => {
            say_tables(rt, &read);
            sheet_line(rt, i, "sheet for the recipe", read.fields());
        }
        Err(refusal) => answers::refused(rt, u8::from(refusal)),
    }
}

fn condition_lines(rt: &(impl Files + Print + Eprint), i: usize, condition: &[u8]) {
    begin(rt, i, "condition");
    match condition::read(condition) {
        Ok(read) => {
            say_counts(rt, &read);
            sheet_line(rt, i, "sheet for the condition", read.fields());
        }
        Err(refusal) => answers::refused(rt, u8::from(refusal)),
    }
}

pub(crate) fn show(rt: &(impl Files + Print + Eprint), i: usize, case: stored::Case) {
    if case.asks & stored::READING == 0 {
        return;
    }
    let mut recipe = [0u8; files::RECIPE];
    let n = stored::read(rt, i, "recipe", &mut recipe);
    recipe_lines(rt, i, &recipe[..n]);
    let mut condition = [0u8; files::CONDITION];
    let n = stored::read(rt, i, "condition", &mut condition);
    condition_lines(rt, i, &condition[..n]);
}
