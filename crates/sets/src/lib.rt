// Sets of conjuncts in regions of one lent slice; module slots has one conjunct of a region. specs/Region.antt
// says what a region holds. Every operation leaves what lies outside of the region that it names.
#![tactic(auto)]

ghost use Rattle.std.specs.Prelude.{◌≡◌, true, [], ◌∷◌, ◌++◌, ◌+◌, ◌*◌, ◌<◌, ◌≤◌, length, get_or, take, drop};
ghost use Rattle.model.specs.Conjunct.{union_of, same};
ghost use Rattle.model.specs.Sizes.{most_conjuncts, most_nodes};
ghost use Rattle.model.specs.TidySets.{Canon};
ghost use Rattle.conjunct.specs.Word.{nodes_of_lem};
ghost use Rattle.conjunct.specs.Value.{conj_of, ConjunctIn};
ghost use Rattle.sets.specs.Region.{few, rows_from, first_of, set_of, Outside, Within, Search, Spotted, Inserted, Joined};
ghost use Rattle.sets.specs.Region.{TwoRegions, ThreeRegions, Room, RoomBeside, Space, SpaceBeside, PlaceIn};
ghost use Rattle.sets.specs.Region.{region_words, slot_words};
ghost use Rattle.sets.specs.Minus.{has, minus};

use conjunct::MOST_NODES;
use std::cmp::Ordering;

pub mod slots;

// the conjuncts of the largest set
const MOST_CONJUNCTS: usize = 64;

// the words of a slot: a node count and room for the nodes
pub const SLOT: usize = 1 + MOST_NODES;

// the words of a region: the count of the conjuncts, and a slot for each
pub const REGION: usize = 1 + MOST_CONJUNCTS * SLOT;

// at most 64
fn at_most(c: u64) -> usize
    ensures { (result ≡ few c) × (result ≤ most_conjuncts) }
{
    c.min(MOST_CONJUNCTS as u64) as usize
}

// ---- a region

pub fn size(s: &[u64], base: usize) -> usize
    requires { base + region_words ≤ length s.now }
    ensures { (result ≡ length (set_of s.now base)) × (result ≤ most_conjuncts) }
{
    at_most(s[base])
}

// the i-th conjunct, to `out`; how many nodes it has. None past the end.
pub fn get(s: &[u64], base: usize, i: usize, out: &mut [u64]) -> usize
    requires { (base + region_words ≤ length s.now) × (most_nodes ≤ length out.old) }
    ensures { (result ≤ most_nodes) × (conj_of out.new result ≡ get_or (set_of s.now base) i []) }
{
    let n = at_most(s[base]);
    if i < n {
        return slots::read_slot(s, base + 1 + SLOT * i, out);
    }
    0
}

// how many nodes the i-th conjunct has; 0 past the end
pub fn node_count(s: &[u64], base: usize, i: usize) -> usize
    requires { base + region_words ≤ length s.now }
    ensures { (result ≤ most_nodes) × (result ≡ length (get_or (set_of s.now base) i [])) }
{
    let n = at_most(s[base]);
    if i < n {
        return conjunct::capped(s[base + 1 + SLOT * i] as usize);
    }
    0
}

// the empty set
pub fn clear(s: &mut [u64], base: usize)
    requires { base + region_words ≤ length s.old }
    ensures { (set_of s.new base ≡ []) × Within base s.old s.new }
{
    s[base] = 0;
}

// n slots from a on moved up by one slot
fn shift(s: &mut [u64], a: usize, n: usize)
    requires { a + slot_words * n + slot_words ≤ length s.old }
    ensures { (rows_from s.new (a + slot_words) n ≡ rows_from s.old a n)
        × Outside (a + slot_words) (slot_words * n) s.old s.new }
{
    for k in (0..n).rev() {
        slots::copy_slot(s, a + SLOT * k + SLOT, a + SLOT * k);
    }
}

// where m words go among the first n slots, by bisection: Ok where they are there, Err with the place that they go before
fn bisect(s: &[u64], base: usize, n: usize, w: &[u64], m: usize) -> Result<(), usize>
    requires { Search s.now base n w.now m }
    ensures { Spotted result (nodes_of_lem (take m w.now)) (first_of s.now base n) }
{
    let mut lo: usize = 0;
    let mut hi = n;
    // By hand: the slots of a region are no slice of items, as binary_search asks for.
    while lo < hi {
        let mid = (lo + hi) / 2;
        match slots::compare_slot(w, m, s, base + 1 + SLOT * mid) {
            Ordering::Less => hi = mid,
            Ordering::Equal => return Ok(()),
            Ordering::Greater => lo = mid + 1,
        }
    }
    Err(lo)
}

// where m words go among the first n slots: mostly behind the last one, which is asked first
fn find(s: &[u64], base: usize, n: usize, w: &[u64], m: usize) -> Result<(), usize>
    requires { Search s.now base n w.now m }
    ensures { Spotted result (nodes_of_lem (take m w.now)) (first_of s.now base n) }
{
    if n == 0 {
        return Err(0);
    }
    match slots::compare_slot(w, m, s, base + 1 + SLOT * (n - 1)) {
        Ordering::Less => bisect(s, base, n, w, m),
        Ordering::Equal => Ok(()),
        Ordering::Greater => Err(n),
    }
}

// m words put before the i-th conjunct of the n of a region
fn place_at(s: &mut [u64], base: usize, n: usize, i: usize, w: &[u64], m: usize)
    requires { PlaceIn s.old base n i × ConjunctIn w.now m }
    ensures { (set_of s.new base
        ≡ take i (first_of s.old base n) ++ (conj_of w.now m ∷ drop i (first_of s.old base n)))
        × Within base s.old s.new }
{
    let a = base + 1 + SLOT * i;
    shift(s, a, n - i);
    slots::write_slot(s, a, w, m);
    s[base] = (n + 1) as u64;
}

// the first m words as one conjunct more; false where the set would have over 64
pub fn insert(s: &mut [u64], base: usize, w: &[u64], m: usize) -> bool
    requires { Room s.old base × ConjunctIn w.now m }
    ensures { Inserted result base (conj_of w.now m) s.old s.new × Within base s.old s.new }
{
    let n = at_most(s[base]);
    let Err(i) = find(s, base, n, &w[..m], m) else {
        return true;
    };
    if n >= MOST_CONJUNCTS {
        return false;
    }
    place_at(s, base, n, i, w, m);
    true
}

// the set of another region
pub fn copy(s: &mut [u64], to: usize, from: usize)
    requires { TwoRegions s.old to from }
    ensures { (set_of s.new to ≡ set_of s.old from) × Within to s.old s.new }
{
    let n = at_most(s[from]);
    for i in 0..n {
        slots::copy_slot(s, to + 1 + SLOT * i, from + 1 + SLOT * i);
    }
    s[to] = n as u64;
}

// with all conjuncts of another region, from the first to the last; false where the set would have
// over 64. `words` is room to work in.
fn join(s: &mut [u64], to: usize, from: usize, words: &mut [u64]) -> bool
    requires { RoomBeside s.old to from × (most_nodes ≤ length words.old) }
    ensures { Joined result from to s.old s.new × Within to s.old s.new }
{
    let count = size(s, from);
    for k in 0..count {
        let n = get(s, from, k, words);
        if !insert(s, to, words, n) {
            return false;
        }
    }
    true
}

// with all conjuncts of another region; false where the set would have over 64
pub fn union(s: &mut [u64], to: usize, from: usize) -> bool
    requires { RoomBeside s.old to from }
    ensures { Joined result from to s.old s.new × Within to s.old s.new }
{
    let mut words: [u64; MOST_NODES] = [0; MOST_NODES];
    join(s, to, from, &mut words)
}

// are two sets the same?
pub fn equal(s: &[u64], a: usize, b: usize) -> bool
    requires { (a + region_words ≤ length s.now) × (b + region_words ≤ length s.now) }
    ensures { result ≡ same (set_of s.now a) (set_of s.now b) }
{
    let n = at_most(s[a]);
    let m = at_most(s[b]);
    if n != m {
        return false;
    }
    for i in 0..n {
        if !slots::same_slot(s, a + 1 + SLOT * i, b + 1 + SLOT * i) {
            return false;
        }
    }
    true
}

// ---- conjuncts out of their order

// does each conjunct of the region stand before the next one?
fn rises(s: &[u64], base: usize) -> bool
    requires { base + region_words ≤ length s.now }
    ensures { result ≡ true → Canon (set_of s.now base) }
{
    let n = at_most(s[base]);
    for i in 1..n {
        let a = base + 1 + SLOT * i;
        if slots::order_slots(s, a - SLOT, a).is_ge() {
            return false;
        }
    }
    true
}

// the conjuncts of the region at b, whatever their order, as a set; the region after it is room to work in
pub fn arrange(s: &mut [u64], b: usize)
    requires { b + 2 * region_words ≤ length s.old }
    ensures { (set_of s.new b ≡ union_of (set_of s.old b) []) × Outside b (2 * region_words) s.old s.new }
{
    if rises(s, b) {
        return;
    }
    let room = b + REGION;
    clear(s, room);
    union(s, room, b);
    copy(s, b, room);
}

// ---- the difference of two sets

// are the first m words a conjunct of the region?
fn holds(s: &[u64], base: usize, w: &[u64], m: usize) -> bool
    requires { Room s.now base × (m ≤ length w.now) }
    ensures { result ≡ has (conj_of w.now m) (set_of s.now base) }
{
    let n = at_most(s[base]);
    find(s, base, n, w, m).is_ok()
}

// the first m words put behind the last conjunct of a region
fn append(s: &mut [u64], base: usize, w: &[u64], m: usize)
    requires { Space s.old base × ConjunctIn w.now m }
    ensures { (set_of s.new base ≡ set_of s.old base ++ (conj_of w.now m ∷ [])) × Within base s.old s.new }
{
    let n = at_most(s[base]);
    place_at(s, base, n, n, w, m);
}

// the first m words put behind the last conjunct of the region at `to`, unless that at `known` has them
fn keep(s: &mut [u64], to: usize, known: usize, w: &[u64], m: usize)
    requires { SpaceBeside s.old to known × ConjunctIn w.now m }
    ensures { (set_of s.new to ≡ set_of s.old to ++ minus (conj_of w.now m ∷ []) (set_of s.old known))
        × Within to s.old s.new }
{
    if holds(s, known, w, m) {
        return;
    }
    append(s, to, w, m);
}

// to the region at `to`, what that at `from` has and that at `known` has not. `words` is room to work in.
// A loop beside that of join: what is called, with what, and where it ends all differ.
fn sift(s: &mut [u64], to: usize, from: usize, known: usize, words: &mut [u64])
    requires { ThreeRegions s.old to from known × (most_nodes ≤ length words.old) }
    ensures { (set_of s.new to ≡ minus (set_of s.old from) (set_of s.old known)) × Within to s.old s.new }
{
    clear(s, to);
    let n = size(s, from);
    for k in 0..n {
        let m = get(s, from, k, words);
        keep(s, to, known, words, m);
    }
}

// to the region at `to`, what that at `from` has and that at `known` has not
pub fn subtract(s: &mut [u64], to: usize, from: usize, known: usize)
    requires { ThreeRegions s.old to from known }
    ensures { (set_of s.new to ≡ minus (set_of s.old from) (set_of s.old known)) × Within to s.old s.new }
{
    let mut words: [u64; MOST_NODES] = [0; MOST_NODES];
    sift(s, to, from, known, &mut words);
}
