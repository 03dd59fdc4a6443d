// The rule of one statement on a set of conjuncts. Before most statements a conjunct comes to one: that is
// put in its place, and the set arranged anew. Before a store to an array of several cells it comes to several:
// these are gathered in another region. `out` and `seen` are room for 120 words each to work in.
#![tactic(auto)]

ghost use Rattle.std.specs.Prelude.{◌≡◌, ℕ, ◌+◌, ◌*◌, ◌≤◌, ◌<◌, ◌^◌, length, get_or, take};
ghost use mathlib.Core.List.{List, [], ◌∷◌, map, flat_map};
ghost use Rattle.model.specs.Conjunct.{Atom, atom, var, atoms, renumber};
ghost use Rattle.model.specs.Kinds.{a_load, a_site};
ghost use Rattle.model.specs.Walk.{nodes, replace, loads, subsets, before, back};
ghost use Rattle.code_table.specs.Statements.{number_of, instr_of};
ghost use Rattle.conjunct.specs.Word.{node_of, nodes_of_lem};
ghost use Rattle.conjunct.specs.Value.{conj_of, ConjunctIn};
ghost use Rattle.conjunct.specs.Behind.{right_of_lem};
ghost use Rattle.sets.specs.Region.{slot_at, set_of, Within, Room};
ghost use Rattle.rules.specs.Adding.{side_of, NoneLong, Added, Buffers, Given, GivenStore, GivenSet, Labelled, SeveralCells, Renumbered, Choosing, Working};
ghost use Rattle.rules.specs.Changing.{image_of, ToOne, OneCell, NumberedSlot, OneForOne, SeveralForOne, GivenSlot, GivenSlots, Ruled, OneEach, Renewed, ChangedTo, AllChanged};
ghost use Rattle.rules.specs.Answers.{answered, Below};

use code_table::Decoded;
use conjunct::MOST_NODES;
use conjunct::numbering::Right;
use refusals::Refusal;

// ---- assignments: kinds 0 to 8

// at most three nodes
fn right(nodes: &[u64]) -> Right
    requires { length nodes.now ≤ 3 }
    ensures { (result.len ≤ 3) × (right_of_lem result ≡ nodes_of_lem nodes.now) }
{
    let mut all: [u64; 3] = [0; 3];
    all[..nodes.len()].copy_from_slice(nodes);
    Right {
        len: nodes.len(),
        nodes: all,
    }
}

// the right side's nodes; a read or a load is a fresh atom
fn right_side(label: u64, d: Decoded) -> Right
    requires { Labelled label d a_load }
    ensures { (result.len ≤ 3) × (right_of_lem result ≡ nodes label d.ty (side_of d)) }
{
    let ty = d.ty as u64;
    let b = d.b as u64;
    match d.kind {
        0 => right(&[conjunct::node::constant(ty, d.imm)]),
        1 => right(&[conjunct::node::variable(b, ty)]),
        2..=5 => right(&[
            conjunct::node::variable(b, ty),
            conjunct::node::variable(d.c as u64, ty),
            conjunct::node::operation(d.kind as u64, ty),
        ]),
        6 => right(&[
            conjunct::node::variable(b, d.from as u64),
            conjunct::node::conversion(ty),
        ]),
        7 => right(&[conjunct::node::reading(b, ty)]),
        _ => right(&[conjunct::node::load(label, b, d.len, ty)]),
    }
}

// ---- a conjunct in its slot: statements before which a conjunct comes to one

// The one node of the right side for the variable x in the conjunct of the slot at a.
fn exchange_slot(s: &mut [u64], a: usize, x: u64, right: Right, seen: &mut [u64])
    requires { OneForOne s.old a x right seen.old }
    ensures { Renewed (renumber (flat_map (replace x (right_of_lem right)) (nodes_of_lem (slot_at s.old a)))) a s.old s.new }
{
    let n = conjunct::capped(s[a] as usize);
    conjunct::numbering::replace_variable(&mut s[a + 1..a + 1 + n], x, right, seen);
}

// The right side for the variable x in the conjunct of the slot at a, by way of `out`.
fn substitute_slot(
    s: &mut [u64],
    a: usize,
    x: u64,
    right: Right,
    out: &mut [u64],
    seen: &mut [u64],
) -> Result<(), Refusal>
    requires { SeveralForOne s.old a right out.old seen.old }
    ensures { ChangedTo result (renumber (flat_map (replace x (right_of_lem right)) (nodes_of_lem (slot_at s.old a)))) a s.old s.new }
{
    let n = conjunct::capped(s[a] as usize);
    let Some(m) = conjunct::numbering::substitute(&s[a + 1..], n, x, right, out, seen) else {
        return Err(Refusal::TooManyNodes);
    };
    sets::slots::write_slot(s, a, out, m);
    Ok(())
}

// The right side of the assignment d for its variable.
fn assign_slot(
    s: &mut [u64],
    a: usize,
    label: u64,
    d: Decoded,
    out: &mut [u64],
    seen: &mut [u64],
) -> Result<(), Refusal>
    requires { GivenSlot s.old a label d out.old seen.old × (d.kind ≤ number_of a_load) }
    ensures { ChangedTo result (image_of label d (nodes_of_lem (slot_at s.old a))) a s.old s.new }
{
    let right = right_side(label, d);
    let x = d.a as u64;
    if right.len == 1 {
        exchange_slot(s, a, x, right, seen);
        return Ok(());
    }
    let n = conjunct::capped(s[a] as usize);
    if !conjunct::mentions_variable(&s[a + 1..], n, x) {
        return Ok(());
    }
    substitute_slot(s, a, x, right, out, seen)
}

// Every load from the one cell of the store d by the stored variable. No source of an atom is left in
// part, so the numbers stay.
fn store_slot(s: &mut [u64], a: usize, d: Decoded)
    requires { NumberedSlot s.old a × OneCell d }
    ensures { (label : ℕ) → Renewed (image_of label d (nodes_of_lem (slot_at s.old a))) a s.old s.new }
{
    let v = conjunct::node::variable(d.c as u64, d.ty as u64);
    let n = conjunct::capped(s[a] as usize);
    conjunct::replace_all(&mut s[a + 1..a + 1 + n], n, d.a as u64, d.len, v);
}

// What the conjunct of the slot at a comes to before the statement d.
fn change_slot(
    s: &mut [u64],
    a: usize,
    label: u64,
    d: Decoded,
    out: &mut [u64],
    seen: &mut [u64],
) -> Result<(), Refusal>
    requires { GivenSlot s.old a label d out.old seen.old × ToOne d }
    ensures { ChangedTo result (image_of label d (nodes_of_lem (slot_at s.old a))) a s.old s.new }
{
    let kind = d.kind;
    if kind <= 8 {
        return assign_slot(s, a, label, d, out, seen);
    }
    if kind == 9 {
        store_slot(s, a, d);
    }
    Ok(())
}

// What each conjunct of the region at b comes to before the statement d, in the place of that conjunct.
fn change_all(
    s: &mut [u64],
    b: usize,
    label: u64,
    d: Decoded,
    out: &mut [u64],
    seen: &mut [u64],
) -> Result<(), Refusal>
    requires { GivenSlots s.old b label d × Buffers out.old seen.old }
    ensures { AllChanged result label d b s.old s.new }
{
    let count = sets::size(s, b);
    for k in 0..count {
        let a = b + 1 + sets::SLOT * k;
        change_slot(s, a, label, d, out, seen)?;
    }
    Ok(())
}

// The rule of a statement before which a conjunct comes to one. The region after that at b is room to
// work in.
fn change(s: &mut [u64], b: usize, label: u64, d: Decoded) -> Result<(), Refusal>
    requires { Ruled s.old b × OneEach label d }
    ensures { (back label (instr_of d) (set_of s.old b) ≡ answered result (set_of s.new b))
        × Below b s.old s.new }
{
    let mut out: [u64; MOST_NODES] = [0; MOST_NODES];
    let mut seen: [u64; MOST_NODES] = [0; MOST_NODES];
    change_all(s, b, label, d, &mut out, &mut seen)?;
    sets::arrange(s, b);
    Ok(())
}

// ---- stores to an array of several cells, before which a conjunct comes to several

// One conjunct more, within the limits.
fn insert(s: &mut [u64], room: usize, e: &[u64], n: usize) -> Result<(), Refusal>
    requires { Room s.old room × ConjunctIn e.now n }
    ensures { Added result NoneLong (conj_of e.now n ∷ []) room s.old s.new
        × Within room s.old s.new }
{
    if sets::insert(s, room, e, n) {
        return Ok(());
    }
    Err(Refusal::TooManyConjuncts)
}

// The same, renumbered.
fn add(s: &mut [u64], room: usize, e: &mut [u64], n: usize, seen: &mut [u64]) -> Result<(), Refusal>
    requires { Room s.old room × Renumbered e.old n seen.old }
    ensures { Added result NoneLong (renumber (conj_of e.old n) ∷ []) room s.old s.new
        × Within room s.old s.new }
{
    conjunct::numbering::renumber(e, n, seen);
    insert(s, room, e, n)
}

// 2 to the power n
fn power(n: usize) -> u64
    requires { n ≤ 6 }
    ensures { result ≡ 2 ^ n }
{
    1 << n
}

// The j-th of the conjuncts for the subsets of the loads, from the conjunct itself: from the first load
// on, it is left in the lower half of them and replaced by the variable v in the upper half.
fn choose(w: &mut [u64], n: usize, atoms: &[u64], j: u64, v: u64)
    requires { Choosing w.old n atoms.now j }
    ensures { (ks : List Atom) (x ty : ℕ) → nodes_of_lem atoms.now ≡ map atom ks → node_of v ≡ var x ty
        → conj_of w.new n ≡ get_or (subsets ks x ty (conj_of w.old n)) j [] }
{
    let mut rest = j;
    let mut half = power(atoms.len());
    for &atom in atoms {
        half /= 2;
        if rest >= half {
            conjunct::replace_one(w, n, atom, v);
            rest -= half;
        }
    }
}

// The conjunct of each subset of the loads.
fn add_subsets(
    s: &mut [u64],
    room: usize,
    e: &[u64],
    n: usize,
    atoms: &[u64],
    v: u64,
    out: &mut [u64],
    seen: &mut [u64],
) -> Result<(), Refusal>
    requires { Given s.old room e.now n out.old seen.old × (length atoms.now ≤ 6) }
    ensures { ((ks : List Atom) (x ty : ℕ) → nodes_of_lem atoms.now ≡ map atom ks → node_of v ≡ var x ty
        → Added result NoneLong (map renumber (subsets ks x ty (conj_of e.now n))) room s.old s.new)
        × Within room s.old s.new }
{
    for j in (0..power(atoms.len())).rev() {
        out[..n].copy_from_slice(&e[..n]);
        choose(out, n, atoms, j, v);
        add(s, room, out, n, seen)?;
    }
    Ok(())
}

// a store: the array with its length, and the stored variable as a node
#[derive(Clone, Copy)]
struct Store {
    array: u64,
    len: u64,
    variable: u64,
}

// A store to an array of several cells: a conjunct for each subset of the loads. For seven loads
// or more these are over 64.
fn store_subsets(
    s: &mut [u64],
    room: usize,
    e: &[u64],
    n: usize,
    t: Store,
    out: &mut [u64],
    seen: &mut [u64],
) -> Result<(), Refusal>
    requires { Given s.old room e.now n out.old seen.old }
    ensures { ((x ty : ℕ) → node_of t.variable ≡ var x ty
        → Added result NoneLong (map renumber (subsets (loads t.array t.len (atoms (conj_of e.now n))) x ty (conj_of e.now n)))
        room s.old s.new)
        × Within room s.old s.new }
{
    let mut atoms: [u64; MOST_NODES] = [0; MOST_NODES];
    let k = conjunct::numbering::loads(e, n, t.array, t.len, &mut atoms);
    if k >= 7 {
        return Err(Refusal::TooManyConjuncts);
    }
    add_subsets(s, room, e, n, &atoms[0..k], t.variable, out, seen)
}

// What one conjunct comes to before the store d, added to the set of the room. A conjunct without a load
// from its array stays as it is.
fn add_before(
    s: &mut [u64],
    room: usize,
    e: &[u64],
    n: usize,
    d: Decoded,
    out: &mut [u64],
    seen: &mut [u64],
) -> Result<(), Refusal>
    requires { GivenStore s.old room e.now n out.old seen.old d }
    ensures { ((label : ℕ) → Added result NoneLong (map renumber (before label (instr_of d) (conj_of e.now n)))
        room s.old s.new)
        × Within room s.old s.new }
{
    if !conjunct::mentions_array(e, n, d.a as u64, d.len) {
        return insert(s, room, e, n);
    }
    let t = Store {
        array: d.a as u64,
        len: d.len,
        variable: conjunct::node::variable(d.c as u64, d.ty as u64),
    };
    store_subsets(s, room, e, n, t, out, seen)
}

// What the conjuncts of the region at b come to before the store d, gathered in the empty room from the
// first to the last.
fn gather(
    s: &mut [u64],
    b: usize,
    room: usize,
    d: Decoded,
    e: &mut [u64],
    out: &mut [u64],
    seen: &mut [u64],
) -> Result<(), Refusal>
    requires { GivenSet s.old b room d × Working e.old out.old seen.old }
    ensures { ((label : ℕ) → back label (instr_of d) (set_of s.old b) ≡ answered result (set_of s.new room))
        × Within room s.old s.new }
{
    let count = sets::size(s, b);
    for k in 0..count {
        let n = sets::get(s, b, k, e);
        add_before(s, room, e, n, d, out, seen)?;
    }
    Ok(())
}

// The same, with room to work in.
fn gather_all(s: &mut [u64], b: usize, room: usize, d: Decoded) -> Result<(), Refusal>
    requires { GivenSet s.old b room d }
    ensures { ((label : ℕ) → back label (instr_of d) (set_of s.old b) ≡ answered result (set_of s.new room))
        × Within room s.old s.new }
{
    let mut e: [u64; MOST_NODES] = [0; MOST_NODES];
    let mut out: [u64; MOST_NODES] = [0; MOST_NODES];
    let mut seen: [u64; MOST_NODES] = [0; MOST_NODES];
    gather(s, b, room, d, &mut e, &mut out, &mut seen)
}

// The rule of a store to an array of several cells. The region after that at b is room to work in.
fn spread(s: &mut [u64], b: usize, d: Decoded) -> Result<(), Refusal>
    requires { Ruled s.old b × SeveralCells d }
    ensures { ((label : ℕ) → back label (instr_of d) (set_of s.old b) ≡ answered result (set_of s.new b))
        × Below b s.old s.new }
{
    let room = b + sets::REGION;
    sets::clear(s, room);
    gather_all(s, b, room, d)?;
    sets::copy(s, b, room);
    Ok(())
}

// ---- the rule

// The rule of the statement d with a label on the set of the region at b. The region after it, at
// b + sets::REGION, is room to work in.
pub fn rule(s: &mut [u64], b: usize, label: u64, d: Decoded) -> Result<(), Refusal>
    requires { Ruled s.old b × Labelled label d a_site }
    ensures { (back label (instr_of d) (set_of s.old b) ≡ answered result (set_of s.new b))
        × Below b s.old s.new }
{
    if d.kind != 9 || d.len == 1 {
        return change(s, b, label, d);
    }
    spread(s, b, d)
}
