// The numbering of a conjunct's atoms, the substitution for a variable, and the loads of an array.
ghost use Rattle.std.specs.Prelude.{◌≡◌, Bool, true, cond, ℕ, ◌+◌, ◌<◌, ◌≤◌, eqb, length, take};
ghost use mathlib.Core.List.{map, flat_map, ◌++◌};
ghost use Rattle.model.specs.Conjunct.{Source, atom, renumber, atoms, same_source_lem, AtAtom};
ghost use Rattle.model.specs.Walk.{replace, loads};
ghost use Rattle.model.specs.Sizes.{most_nodes};
ghost use Rattle.model.specs.Touch.{some};
ghost use Rattle.conjunct.specs.Word.{is_atom_lem, source_of, key_of, node_of, nodes_of_lem};
ghost use Rattle.conjunct.specs.Value.{conj_of, ConjunctIn};
ghost use Rattle.conjunct.specs.Behind.{SeenAtoms, RoomBehind, Ranked, Behind, LoadBehind, SourceIn, renumber_passing, right_words, Substitutable, Replaced, right_of_lem, Exchangeable};

use super::{MOST_NODES, change_each, node};

// a word with its new number, and how many atoms there are then
#[derive(Clone, Copy)]
pub struct Noted {
    pub word: u64,
    pub count: usize,
}

// a right side of an assignment: at most 3 nodes
#[derive(Clone, Copy)]
pub struct Right {
    pub len: usize,
    pub nodes: [u64; 3],
}

// Ok where an atom is there, with how many of its source stand before it; else Err, with how many there are
fn look_up(seen: &[u64], m: usize, w: u64) -> Result<u64, u64>
    requires { SeenAtoms seen.now m × (is_atom_lem w ≡ true) }
    ensures { Ranked (take m seen.now) w result }
{
    let s = node::source(w);
    let mut n: u64 = 0;
    for j in 0..m {
        let k = seen[j];
        if k == w {
            return Ok(n);
        }
        n += (s == node::source(k)) as u64;
    }
    Err(n)
}

fn note(seen: &mut [u64], m: usize, w: u64) -> Noted
    requires { (m < most_nodes) × RoomBehind seen.old m }
    ensures { Behind (take m seen.old) w m seen.new result }
{
    if !node::is_atom(w) {
        return Noted { word: w, count: m };
    }
    match look_up(seen, m, w) {
        Ok(k) => Noted {
            word: node::numbered(w, k + 1),
            count: m,
        },
        Err(k) => {
            seen[m] = w;
            Noted {
                word: node::numbered(w, k + 1),
                count: m + 1,
            }
        }
    }
}

// of the atoms whose words pass, the n of each source count from 1 by first appearance, all other words stay;
// `seen` is room to work in, and holds these atoms alone
fn renumber_those<F: Fn(u64) -> bool>(words: &mut [u64], n: usize, seen: &mut [u64], passes: F)
    requires room { ConjunctIn words.old n × (most_nodes ≤ length seen.old) }
    requires callable { F.IsAlwaysCallable passes }
    ensures { (P : Source → Bool) → ((w : ℕ) (b : Bool) → F.post passes w b → AtAtom (λ a. P a.src ≡ b) (node_of w))
        → conj_of words.new n ≡ renumber_passing P (conj_of words.old n) }
{
    let mut m: usize = 0;
    for i in 0..n {
        let w = words[i];
        if !passes(w) {
            continue;
        }
        let p = note(seen, m, w);
        words[i] = p.word;
        m = p.count;
    }
}

// the n of each source count from 1 by first appearance; `seen` is room to work in
pub fn renumber(words: &mut [u64], n: usize, seen: &mut [u64])
    requires { ConjunctIn words.old n × (most_nodes ≤ length seen.old) }
    ensures { conj_of words.new n ≡ renumber (conj_of words.old n) }
{
    renumber_those(words, n, seen, |_| true);
}

// the n of the atoms of u's source count from 1 by first appearance, all other words stay; `seen` is
// room to work in
fn renumber_source(words: &mut [u64], n: usize, u: u64, seen: &mut [u64])
    requires { SourceIn words.old n u seen.old }
    ensures { conj_of words.new n ≡ renumber_passing (same_source_lem (source_of u)) (conj_of words.old n) }
{
    let key = node::source(u);
    renumber_those(words, n, seen, |w| node::source(w) == key);
}

// At most three words, stored one by one: a call that copies them takes twice as long.
fn put(out: &mut [u64], m: usize, p: Right)
    requires { (p.len ≤ 3) × (m + p.len ≤ length out.old) }
    ensures { take (m + p.len) out.new ≡ take m out.old ++ right_words p }
{
    if p.len == 0 {
        return;
    }
    out[m] = p.nodes[0];
    if p.len == 1 {
        return;
    }
    out[m + 1] = p.nodes[1];
    if p.len == 2 {
        return;
    }
    out[m + 2] = p.nodes[2];
}

// is one of its three words an atom's?
fn has_atom(p: Right) -> bool
    ensures { result ≡ some is_atom_lem p.nodes }
{
    p.nodes.iter().any(|w| node::is_atom(*w))
}

// the right side r for the variable x in the first n words of e, numbered anew, to `out`; `seen` is
// room to work in. Without an atom in r the numbers are those of e. Answers how many nodes there are, or
// None if they are over 120.
pub fn substitute(
    e: &[u64],
    n: usize,
    x: u64,
    r: Right,
    out: &mut [u64],
    seen: &mut [u64],
) -> Option<usize>
    requires { Substitutable e.now n r out.old seen.old }
    ensures { Replaced result (conj_of e.now n) x r out.new }
{
    let k = r.len;
    let mut m: usize = 0;
    for i in 0..n {
        let w = e[i];
        if node::is_variable(w, x) {
            if m + k > MOST_NODES {
                return None;
            }
            put(out, m, r);
            m += k;
            continue;
        }
        if m >= MOST_NODES {
            return None;
        }
        out[m] = w;
        m += 1;
    }
    if !has_atom(r) {
        return Some(m);
    }
    renumber(out, m, seen);
    Some(m)
}

// the one node of r for the variable x in the words, numbered anew; `seen` is room to work in. If it is an
// atom, those of its source get other numbers; all others keep theirs.
pub fn replace_variable(words: &mut [u64], x: u64, r: Right, seen: &mut [u64])
    requires { Exchangeable words.old x r seen.old }
    ensures { nodes_of_lem words.new ≡ renumber (flat_map (replace x (right_of_lem r)) (nodes_of_lem words.old)) }
{
    let v = node::variable(x, 0);
    let u = r.nodes[0];
    let n = words.len();
    change_each(words, n, |word| {
        if node::same_variable(word, v) {
            u
        } else {
            word
        }
    });
    if node::is_atom(u) {
        renumber_source(words, n, u, seen);
    }
}

fn note_load(seen: &mut [u64], m: usize, w: u64, array: u64, len: u64) -> usize
    requires { RoomBehind seen.old m }
    ensures { (result ≤ m + 1) × LoadBehind array len (take m seen.old) w (take result seen.new) }
{
    if !node::is_load(w, array, len) {
        return m;
    }
    match look_up(seen, m, w) {
        Ok(_) => m,
        Err(_) => {
            seen[m] = w;
            m + 1
        }
    }
}

// the distinct loads from the array in the first n words of e by first appearance, as nodes, to `out`;
// how many they are
pub fn loads(e: &[u64], n: usize, array: u64, len: u64, out: &mut [u64]) -> usize
    requires { ConjunctIn e.now n × (most_nodes ≤ length out.old) }
    ensures { (result ≤ n) × (conj_of out.new result ≡ map atom (loads array len (atoms (conj_of e.now n)))) }
{
    let mut m: usize = 0;
    for i in 0..n {
        m = note_load(out, m, e[i], array, len);
    }
    m
}
