// One slot of a region: a conjunct's node count and its nodes, read, written, copied and compared.
ghost use Rattle.std.specs.Prelude.{◌≡◌, ◌∷◌, ◌+◌, ◌≤◌, length, take};
ghost use Rattle.std.proofs.Math.Dec.{compare_is_eq};
ghost use Rattle.model.specs.Conjunct.{order, order_nodes};
ghost use Rattle.model.specs.Sizes.{most_nodes};
ghost use Rattle.bytes_le.specs.Overlay.{overlay};
ghost use Rattle.conjunct.specs.Word.{nodes_of_lem};
ghost use Rattle.conjunct.specs.Value.{ordering_of, ConjunctIn};
ghost use Rattle.sets.specs.Region.{slot_at, Outside, TwoSlots, slot_words};

use std::cmp::Ordering;

// the words of the slot at a to `out`; how many they are
pub fn read_slot(s: &[u64], a: usize, out: &mut [u64]) -> usize
    requires { (a + slot_words ≤ length s.now) × (most_nodes ≤ length out.old) }
    ensures { (result ≤ most_nodes) × (take result out.new ≡ slot_at s.now a) }
{
    let n = conjunct::capped(s[a] as usize);
    out[..n].copy_from_slice(&s[a + 1..a + 1 + n]);
    n
}

// n words to the slot at a
pub fn write_slot(s: &mut [u64], a: usize, w: &[u64], n: usize)
    requires { (a + slot_words ≤ length s.old) × ConjunctIn w.now n }
    ensures { s.new ≡ overlay s.old a (n ∷ take n w.now) }
{
    s[a] = n as u64;
    // No copy_from_slice: the archive for C would need memmove from outside.
    for j in 0..n {
        s[a + 1 + j] = w[j];
    }
}

// the conjunct of the slot at `from` to the slot at `to`
pub fn copy_slot(s: &mut [u64], to: usize, from: usize)
    requires { TwoSlots s.old to from }
    ensures { (slot_at s.new to ≡ slot_at s.old from) × Outside to slot_words s.old s.new }
{
    let n = 1 + conjunct::capped(s[from] as usize);
    s.copy_within(from..from + n, to);
}

// m words against the conjunct of the slot at a
pub fn compare_slot(w: &[u64], m: usize, s: &[u64], a: usize) -> Ordering
    requires { (m ≤ length w.now) × (a + slot_words ≤ length s.now) }
    ensures { ordering_of result ≡ order (nodes_of_lem (take m w.now)) (nodes_of_lem (slot_at s.now a)) }
{
    let n = conjunct::capped(s[a] as usize);
    conjunct::order_at(w, 0, m, s, a + 1, n)
}

// the conjunct of the slot at a against that of the slot at b
pub fn order_slots(s: &[u64], a: usize, b: usize) -> Ordering
    requires { (a + slot_words ≤ length s.now) × (b + slot_words ≤ length s.now) }
    ensures { ordering_of result ≡ order (nodes_of_lem (slot_at s.now a)) (nodes_of_lem (slot_at s.now b)) }
{
    let n = conjunct::capped(s[a] as usize);
    compare_slot(&s[a + 1..], n, s, b)
}

// are the conjuncts of two slots the same?
pub fn same_slot(s: &[u64], a: usize, b: usize) -> bool
    requires { (a + slot_words ≤ length s.now) × (b + slot_words ≤ length s.now) }
    ensures { result ≡ compare_is_eq (order_nodes (nodes_of_lem (slot_at s.now a)) (nodes_of_lem (slot_at s.now b))) }
{
    order_slots(s, a, b).is_eq()
}
