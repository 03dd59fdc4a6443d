// The condition file of a set of conjuncts, written to the start of a lent output. Every byte past
// the file stays as it was.
#![tactic(auto)]

ghost use Rattle.std.specs.Prelude.{◌≡◌, ◌++◌, ◌+◌, ◌*◌, ◌≤◌, length};
ghost use Rattle.model.specs.Bytes.{bytes4};
ghost use Rattle.model.specs.Condition.{pair_bytes};
ghost use Rattle.model.specs.Sizes.{most_nodes};
ghost use Rattle.bytes_le.specs.Overlay.{overlay};
ghost use Rattle.program.specs.Reading.{tables_of};
ghost use Rattle.conjunct.specs.Word.{file_bytes};
ghost use Rattle.conjunct.specs.Value.{conj_of, ConjunctIn};
ghost use Rattle.sets.specs.Region.{set_of};
ghost use Rattle.writer.specs.Writing.{conjunct_room, pairs_room, conjuncts_room, last_begin};
ghost use Rattle.writer.specs.Writing.{PairFits, SetAndRoom, ConjunctWritten, ConjunctsWritten, Writable, FileWritten};

use conjunct::MOST_NODES;
use program::Program;

// the 8 bytes of a number, from the highest on
fn put_high_first(out: &mut [u8], a: usize, v: u64)
    requires { a + 8 ≤ length out.old }
    ensures { out.new ≡ overlay out.old a (file_bytes v) }
{
    bytes_le::put_bytes(out, a, &v.to_be_bytes(), 8);
}

// the nodes of the conjunct of the first n words; where the next one begins
fn put_conjunct(out: &mut [u8], a: usize, w: &[u64], n: usize) -> usize
    requires { (a + conjunct_room ≤ length out.old) × ConjunctIn w.now n }
    ensures { ConjunctWritten (conj_of w.now n) a out.old out.new result }
{
    for i in 0..n {
        put_high_first(out, a + 8 * i, conjunct::node::filed(w[i]));
    }
    a + 8 * n
}

// the pair of a conjunct of n nodes that begins at a place
fn put_pair(out: &mut [u8], a: usize, place: usize, n: usize)
    requires { PairFits out.old a place n }
    ensures { out.new ≡ overlay out.old a (bytes4 place ++ bytes4 (8 * n)) }
{
    bytes_le::put_u32(out, a, place as u64);
    bytes_le::put_u32(out, a + 4, (8 * n) as u64);
}

// the pairs of the conjuncts of a set, of which the first begins at a place
fn put_pairs(out: &mut [u8], a: usize, s: &[u64], b: usize, begin: usize)
    requires { SetAndRoom pairs_room s.now b out.old a × (begin ≤ last_begin) }
    ensures { out.new ≡ overlay out.old a (pair_bytes begin (set_of s.now b)) }
{
    let count = sets::size(s, b);
    let mut place = begin;
    for i in 0..count {
        let n = sets::node_count(s, b, i);
        put_pair(out, a + 8 * i, place, n);
        place += 8 * n;
    }
}

// the conjuncts of a set, one after the other; where the last one ends. `words` is room to work in.
fn put_conjuncts(out: &mut [u8], a: usize, s: &[u64], b: usize, words: &mut [u64]) -> usize
    requires { SetAndRoom conjuncts_room s.now b out.old a × (most_nodes ≤ length words.old) }
    ensures { ConjunctsWritten (set_of s.now b) a out.old out.new result }
{
    let count = sets::size(s, b);
    let mut place = a;
    for i in 0..count {
        let n = sets::get(s, b, i, words);
        place = put_conjunct(out, place, words, n);
    }
    place
}

// The condition file of the set in the region at b of s, with the program's fields; how many bytes
// it has.
pub fn write(program: &Program, s: &[u64], b: usize, out: &mut [u8]) -> usize
    requires { Writable program.now s.now b out.old }
    ensures { FileWritten (tables_of program.now).fields (set_of s.now b) out.old out.new result }
{
    let table = program.fields();
    let listed = table.len();
    let fields = program.field_count();
    let count = sets::size(s, b);
    let begin = 8 + listed + 8 * count;
    bytes_le::put_u32(out, 0, count as u64);
    bytes_le::put_u32(out, 4, fields as u64);
    bytes_le::put_bytes(out, 8, table, listed);
    put_pairs(out, 8 + listed, s, b, begin);
    let mut words: [u64; MOST_NODES] = [0; MOST_NODES];
    put_conjuncts(out, begin, s, b, &mut words)
}
