// From a statement of a program to its start: the set just before the statement goes back through the
// blocks around it, the innermost first. A block is known by the labels where it begins and ends.
#![tactic(auto)]

ghost use Rattle.std.specs.Prelude.{◌≡◌, ℕ, ◌+◌, ◌≤◌, ◌<◌, length};
ghost use Rattle.model.specs.Code.{Code};
ghost use Rattle.model.specs.Sizes.{most_rows};
ghost use Rattle.code_table.specs.Table.{table_words, table_of, stmts, mates};
ghost use Rattle.sets.specs.Region.{set_of};
ghost use Rattle.rules.specs.Answers.{answered, Below};
ghost use Rattle.walk.specs.Piece.{Lies};
ghost use Rattle.enclosing.specs.Blocks.{block_end_lem, Innermost};
ghost use Rattle.enclosing.specs.Enclosing.{walk_both_lem, Enclosed, WalksOut, LeavesBlock, Workable, TwoPieces, InBlock, Moved};

use refusals::Refusal;

// How deep blocks are nested at the most.
const NESTED: usize = 4;

// ---- blocks by their labels

// The label of the end of a block that begins at a label; 0 where none begins there.
// 0 and no Option: no label lies before it, so one comparison serves both.
fn block_end(s: &[u64], at: usize) -> usize
    requires { (table_words ≤ length s.now) × (at < most_rows) }
    ensures { result ≡ block_end_lem (stmts s.now at) (mates s.now) at }
{
    let kind = code_table::kind_at(s, 0, at);
    match kind {
        11 => {
            let other = code_table::mate(s, 0, at);
            code_table::mate(s, 0, other)
        }
        14 => code_table::mate(s, 0, at),
        _ => 0,
    }
}

// Where the innermost block begins that holds the statement with a label, at its if or while: the last one
// that begins before it and ends after it. None: the statement stands in no block.
fn innermost(s: &[u64], i: usize) -> Option<usize>
    requires { (table_words ≤ length s.now) × (i ≤ most_rows) }
    ensures { Innermost (stmts s.now) (mates s.now) i result }
{
    for at in (0..i).rev() {
        if i < block_end(s, at) {
            return Some(at);
        }
    }
    None
}

// ---- out of the blocks

// The walks of two pieces, the one on the labels from p up to i and then the one from r up to q.
fn walk_both(s: &mut [u64], b: usize, p: usize, i: usize, r: usize, q: usize) -> Result<(), Refusal>
    requires { TwoPieces s.old b p i r q }
    ensures { Moved ((c d : Code) → Lies s.old c p i → Lies s.old d r q → walk_both_lem c d (set_of s.old b) ≡ answered result (set_of s.new b))
        result b s.old s.new }
{
    walk::walk(s, NESTED, b, p, i)?;
    walk::walk(s, NESTED, b, r, q)
}

// From the label i to the beginning r of the innermost block around it: the part of the block before
// i, and then, out of the body of a while, the whole while.
fn leave_block(s: &mut [u64], b: usize, i: usize, r: usize) -> Result<(), Refusal>
    requires { InBlock s.old b i r }
    ensures { Moved ((n : ℕ) → LeavesBlock (table_of 0 s.old) n i r (set_of s.old b) result (set_of s.new b))
        result b s.old s.new }
{
    let kind = code_table::kind_at(s, 0, r);
    let other = code_table::mate(s, 0, r);
    if kind == 14 {
        return walk_both(s, b, r + 1, i, r, other + 1);
    }
    if i < other {
        return walk::walk(s, NESTED, b, r + 1, i);
    }
    walk::walk(s, NESTED, b, other + 1, i)
}

// From the set of the region at b, just before the statement with the label i, to the set at the
// program's start. From that region on, ten regions are its own.
pub fn walk_out(s: &mut [u64], b: usize, i: usize) -> Result<(), Refusal>
    requires { Workable s.old b × ((n : ℕ) × Enclosed (table_of 0 s.old) n i) }
    ensures { ((n : ℕ) → WalksOut (table_of 0 s.old) n i (set_of s.old b) result (set_of s.new b))
        × Below b s.old s.new }
{
    let mut at = i;
    while let Some(r) = innermost(s, at) {
        leave_block(s, b, at, r)?;
        at = r;
    }
    walk::walk(s, NESTED, b, 0, at)
}
