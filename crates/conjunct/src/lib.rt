// A conjunct as the first n of lent words, each of them a node (module node): its order, and its changes
// node by node. Module numbering has the substitution for a variable and the numbers of the atoms.
#![tactic(auto)]

ghost use Rattle.std.specs.Prelude.{◌≡◌, cond, List, map, length, take, drop};
ghost use Prim.Native.Nat.{ℕ, ◌+◌, ◌<◌, ◌≤◌, compare};
ghost use Rattle.model.specs.Conjunct.{Atom, Node, atom, var, ◌then◌, order_numbers, same_atom, on_atom_lem};
ghost use Rattle.model.specs.Walk.{zeroed, on_array, swap, swap_all};
ghost use Rattle.model.specs.Sizes.{most_nodes};
ghost use Rattle.model.specs.Touch.{is_var, is_load_lem, some};
ghost use Rattle.conjunct.specs.Word.{node_of};
ghost use Rattle.conjunct.specs.Value.{conj_of, ordering_of};

use std::cmp::Ordering;

pub mod node;
pub mod numbering;

// the nodes of the longest conjunct
pub const MOST_NODES: usize = 120;

// a number of nodes, whatever the word that counts them says
pub fn capped(len: usize) -> usize
    ensures { (result ≤ most_nodes) × ((l : List ℕ) → length l ≡ most_nodes → take result l ≡ take len l) }
{
    len.min(MOST_NODES)
}

// n words from place a of s against m words from place b of t: the fewer first, then word by word
pub fn order_at(s: &[u64], a: usize, n: usize, t: &[u64], b: usize, m: usize) -> Ordering
    requires { (a + n ≤ length s.now) × (b + m ≤ length t.now) }
    ensures { ordering_of result ≡ (compare n m then order_numbers (take n (drop a s.now)) (take m (drop b t.now))) }
{
    let sizes = n.cmp(&m);
    if sizes.is_ne() {
        return sizes;
    }
    s[a..a + n].cmp(&t[b..b + m])
}

// ---- node by node

// each of the first n words becomes what f makes of it
fn change_each<F: Fn(u64) -> u64>(w: &mut [u64], n: usize, f: F)
    requires there { n ≤ length w.old }
    requires callable { F.IsAlwaysCallable f }
    ensures { (g : Node → Node) → ((x y : ℕ) → F.post f x y → node_of y ≡ g (node_of x)) → conj_of w.new n ≡ map g (conj_of w.old n) }
{
    for i in 0..n {
        w[i] = f(w[i]);
    }
}

// at the program's start variables and loads are 0
pub fn at_start(w: &mut [u64], n: usize)
    requires { n ≤ length w.old }
    ensures { conj_of w.new n ≡ map zeroed (conj_of w.old n) }
{
    change_each(w, n, node::at_start);
}

// every load from the array by the variable v
pub fn replace_all(w: &mut [u64], n: usize, array: u64, len: u64, v: u64)
    requires { n ≤ length w.old }
    ensures { (x ty : ℕ) → node_of v ≡ var x ty → conj_of w.new n ≡ swap_all array len x ty (conj_of w.old n) }
{
    change_each(w, n, |word| {
        if node::is_load(word, array, len) {
            v
        } else {
            word
        }
    });
}

// the atom a by the variable v
pub fn replace_one(w: &mut [u64], n: usize, a: u64, v: u64)
    requires { n ≤ length w.old }
    ensures { (b : Atom) (x ty : ℕ) → node_of a ≡ atom b → node_of v ≡ var x ty
        → conj_of w.new n ≡ swap b x ty (conj_of w.old n) }
{
    change_each(w, n, |word| if word == a { v } else { word });
}

// ---- what a conjunct speaks of

pub fn mentions_variable(w: &[u64], n: usize, x: u64) -> bool
    requires { n ≤ length w.now }
    ensures { result ≡ some (is_var x) (conj_of w.now n) }
{
    w[..n].iter().any(|word| node::is_variable(*word, x))
}

pub fn mentions_array(w: &[u64], n: usize, array: u64, len: u64) -> bool
    requires { n ≤ length w.now }
    ensures { result ≡ some (is_load_lem array len) (conj_of w.now n) }
{
    w[..n].iter().any(|word| node::is_load(*word, array, len))
}
