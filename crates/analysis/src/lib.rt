// The analysis: from a program's bytes to the condition file that it needs, or a numbered refusal.
#![tactic(auto)]

ghost use Rattle.std.specs.Prelude.{◌≡◌, true, [], ◌∷◌, ℕ, ◌+◌, ◌*◌, ◌≤◌, ◌<◌, length};
ghost use Rattle.model.specs.Code.{Code};
ghost use Rattle.model.specs.Condition.{analysis};
ghost use Rattle.model.specs.Nesting.{Nested};
ghost use Rattle.model.specs.Refusals.{ok};
ghost use Rattle.model.specs.Sizes.{most_nested, most_rows};
ghost use Rattle.model.specs.TidySets.{Tidy};
ghost use Rattle.model.specs.Walk.{start, derived};
ghost use Rattle.code_table.specs.Table.{table_words, table_of, stmt_in};
ghost use Rattle.inliner.specs.Loading.{RowsOf};
ghost use Rattle.conjunct.specs.Word.{node_of};
ghost use Rattle.sets.specs.Region.{set_of, Within, region_words};
ghost use Rattle.rules.specs.Adding.{Buffers};
ghost use Rattle.rules.specs.Answers.{answered, Below};
ghost use Rattle.walk.specs.Piece.{Lies};
ghost use Rattle.enclosing.specs.Enclosing.{Moved};
ghost use Rattle.analysis.specs.Deriving.{union_at, derivation, Derivable, FileGiven, Derives};
ghost use Rattle.analysis.specs.Joining.{hints, joined_to, Sited, Keeps, KeptFrom, Repeats, PassedLabel, EmptyRoom, SiteIn, LabelIn, ProgramIn};

use code_table::Decoded;
use conjunct::MOST_NODES;
use program::Program;
use refusals::Refusal;

// Where the union so far stands: the first region, behind the code table.
const UNION: usize = code_table::WORDS;

// Where a site's set stands: the region after it.
const SITE: usize = UNION + sets::REGION;

// How many variables have a hint of their last site; the others share these.
const HINTS: usize = 64;

// ---- one site

// The set of one conjunct, whose only node is the word w.
fn single(s: &mut [u64], b: usize, w: u64)
    requires { b + region_words ≤ length s.old }
    ensures { (set_of s.new b ≡ (node_of w ∷ []) ∷ []) × Within b s.old s.new }
{
    let words: [u64; 1] = [w];
    sets::clear(s, b);
    sets::insert(s, b, &words, 1);
}

// What the conjuncts of the region at b come to at the program's start, gathered in the empty room
// from the first to the last. `e` and `seen` are room to work in.
fn gather_start(s: &mut [u64], b: usize, room: usize, e: &mut [u64], seen: &mut [u64])
    requires { EmptyRoom s.old b room × Buffers e.old seen.old }
    ensures { (start (set_of s.old b) ≡ ok (set_of s.new room)) × Within room s.old s.new }
{
    let count = sets::size(s, b);
    for k in 0..count {
        let n = sets::get(s, b, k, e);
        conjunct::at_start(e, n);
        conjunct::numbering::renumber(e, n, seen);
        sets::insert(s, room, e, n);
    }
}

// The rule at the program's start on the set of the region at b. The region after it, at b + sets::REGION,
// is room to work in.
fn start_set(s: &mut [u64], b: usize)
    requires { b + 2 * region_words ≤ length s.old }
    ensures { (start (set_of s.old b) ≡ ok (set_of s.new b)) × Below b s.old s.new }
{
    let room = b + sets::REGION;
    sets::clear(s, room);
    let mut e: [u64; MOST_NODES] = [0; MOST_NODES];
    let mut seen: [u64; MOST_NODES] = [0; MOST_NODES];
    gather_start(s, b, room, &mut e, &mut seen);
    sets::copy(s, b, room);
}

// The set of the region after b, at the program's start, joined to the union so far at b.
fn join_next(s: &mut [u64], b: usize) -> Result<(), Refusal>
    requires { (b + 3 * region_words ≤ length s.old) × Tidy (set_of s.old b) }
    ensures { Moved (joined_to (set_of s.old b) (set_of s.old (b + region_words)) ≡ answered result (set_of s.new b))
        result b s.old s.new }
{
    let next = b + sets::REGION;
    start_set(s, next);
    if !sets::union(s, next, b) {
        return Err(Refusal::TooManyConjuncts);
    }
    sets::copy(s, b, next);
    Ok(())
}

// One site, on the variable x of type ty: its set at the program's start, joined to the union so far.
// The first region behind the table holds that union, and from the next one on there is room to work in.
fn site(s: &mut [u64], i: usize, x: usize, ty: u8) -> Result<(), Refusal>
    requires { SiteIn s.old i x ty }
    ensures { Moved ((n : ℕ) → Sited (table_of 0 s.old) n i x ty (set_of s.old union_at) result (set_of s.new union_at))
        result union_at s.old s.new }
{
    let w = conjunct::node::variable(x as u64, ty as u64);
    single(s, SITE, w);
    enclosing::walk_out(s, SITE, i)?;
    join_next(s, UNION)
}

// ---- the sites by rising label

// Whether the statement with the label l is plain and does not write the variable x.
fn keeps(s: &[u64], l: usize, x: usize) -> bool
    requires { (table_words ≤ length s.now) × (l < most_rows) }
    ensures { result ≡ true → Keeps x (stmt_in (table_of 0 s.now) l) }
{
    let d = code_table::fetch(s, 0, l);
    let kind = d.kind;
    // No match: 1,024 sites on few variables took twice as long by one.
    if 11 <= kind {
        return false;
    }
    if 9 <= kind {
        return true;
    }
    d.a != x
}

// Whether the statements on the labels from p up to q are plain and do not write the variable x.
fn keep_all(s: &[u64], p: usize, q: usize, x: usize) -> bool
    requires { (table_words ≤ length s.now) × (q ≤ most_rows) }
    ensures { result ≡ true → KeptFrom (table_of 0 s.now) p q x }
{
    for l in (p..q).rev() {
        if !keeps(s, l, x) {
            return false;
        }
    }
    true
}

// Whether the site d with the label i repeats the statement with the label j: that one is a site on
// the same variable, and nothing between them leaves the block or writes it.
fn repeats(s: &[u64], j: usize, i: usize, d: Decoded) -> bool
    requires { (table_words ≤ length s.now) × (i ≤ most_rows) }
    ensures { result ≡ true → Repeats (table_of 0 s.now) j i d.a d.ty }
{
    if i <= j {
        return false;
    }
    let e = code_table::fetch(s, 0, j);
    e.kind == 10 && e.a == d.a && e.ty == d.ty && keep_all(s, j + 1, i, d.a)
}

// The statement with the label i, if it is a site. One that repeats an earlier one adds nothing; `last` has
// the label where to look for that one, by the variable's number.
fn pass(s: &mut [u64], i: usize, last: &mut [usize]) -> Result<(), Refusal>
    requires { LabelIn s.old i × (hints ≤ length last.old) }
    ensures { Moved ((n : ℕ) → i < n → PassedLabel (table_of 0 s.old) n i (set_of s.old union_at) result (set_of s.new union_at))
        result union_at s.old s.new }
{
    let d = code_table::fetch(s, 0, i);
    let kind = d.kind;
    if kind != 10 {
        return Ok(());
    }
    let x = d.a;
    let j = last[x % HINTS];
    last[x % HINTS] = i;
    if repeats(s, j, i, d) {
        return Ok(());
    }
    site(s, i, x, d.ty)
}

// The set that the analysis derives from the n statements of the table, in the first region. `last` is
// room to work in, whatever it has.
fn join_sites(s: &mut [u64], n: usize, last: &mut [usize]) -> Result<(), Refusal>
    requires { ProgramIn s.old n × (hints ≤ length last.old) }
    ensures { (c : Code) → Lies s.old c 0 n → Nested most_nested c → derived c ≡ answered result (set_of s.new union_at) }
{
    sets::clear(s, UNION);
    for i in 0..n {
        pass(s, i, last)?;
    }
    Ok(())
}

// The set that the analysis derives from the n statements of the table, in the first region, with
// room to work in of its own.
fn sites(s: &mut [u64], n: usize) -> Result<(), Refusal>
    requires { ProgramIn s.old n }
    ensures { (c : Code) → Lies s.old c 0 n → Nested most_nested c → derived c ≡ answered result (set_of s.new union_at) }
{
    let mut last: [usize; HINTS] = [0; HINTS];
    join_sites(s, n, &mut last)
}

// ---- the whole

// The words of scratch that a call of `derive` needs: the code table, the union so far, and ten
// regions for the walk.
pub const SCRATCH: usize = SITE + 10 * sets::REGION;

// The bytes of output that it needs: the length of the longest condition file.
pub const CONDITION: usize = 62024;

// Of a program whose n rows stand in their table.
fn derive_rows(
    program: &Program,
    n: usize,
    condition: &mut [u8],
    scratch: &mut [u64],
) -> Result<usize, Refusal>
    requires { Derivable program.now condition.old scratch.old × RowsOf program.now n (table_of 0 scratch.old) }
    ensures { FileGiven (analysis program.now) result condition.old condition.new }
{
    sites(scratch, n)?;
    Ok(writer::write(program, scratch, UNION, condition))
}

// Of a program that is listed: its rows are written out, and walked.
fn derive_read(
    program: &Program,
    condition: &mut [u8],
    scratch: &mut [u64],
) -> Result<usize, Refusal>
    requires { Derivable program.now condition.old scratch.old }
    ensures { FileGiven (analysis program.now) result condition.old condition.new }
{
    let n = inliner::load(program, scratch, 0)?;
    derive_rows(program, n, condition, scratch)
}

// The condition file of a program's bytes, at the start of the output: its length. A refusal leaves the
// output as it was. The first SCRATCH words of scratch are free, but that the refusals 1 to 8 leave them
// as they were; no word past them changes.
pub fn derive(program: &[u8], condition: &mut [u8], scratch: &mut [u64]) -> Result<usize, Refusal>
    ensures { Derives (derivation (length condition.old) (length scratch.old) program.now) result
        condition.old condition.new scratch.old scratch.new }
{
    if condition.len() < CONDITION || scratch.len() < SCRATCH {
        return Err(Refusal::LentTooShort);
    }
    let program = program::read(program)?;
    derive_read(&program, condition, &mut scratch[..SCRATCH])
}
