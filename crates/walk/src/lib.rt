// The backward walk of a piece of program on a set of conjuncts. One lent slice holds the code table
// and, behind it, sets in regions of words. A block is walked with the two regions after its own: an
// if keeps what its first branch gave in the first of them, a while the set of its last round; the
// second and all after it are the inner walk's. Nothing before a walk's own region changes, so the
// table stays as it is. A while is first closed by light rounds, which walk only what is new, and then
// confirmed by one round on all of it (specs/Light.antt).
#![tactic(auto)]

ghost use Rattle.std.specs.Prelude.{◌≡◌, true, false, ◌+◌, ◌*◌, ◌≤◌, ◌<◌, length};
ghost use Rattle.model.specs.Conjunct.{union_of, limits};
ghost use Rattle.model.specs.Sizes.{most_rows, most_nested, most_inside};
ghost use Rattle.code_table.specs.Table.{table_words, stmts, mates};
ghost use Rattle.sets.specs.Region.{set_of, Within, region_words};
ghost use Rattle.rules.specs.Answers.{answered, Below};
ghost use Rattle.walk.specs.Piece.{Piece, Ready, Flagged, Walked, WalkedBy};
ghost use Rattle.walk.specs.Turn.{first_of, Single, TwoPieces, Branches, Rounded, Loops, Uniting, TwoTidy, BranchOpened, BranchSwitched, RoundsOpened, Closing, Closed};

use footprint::Footprint;
use refusals::Refusal;

// The rounds of a while in which its set has to settle.
const MOST_ROUNDS: usize = 16;

// How a round of a while ends: the set is settled, or another round is due.
#[derive(Clone, Copy, Debug, PartialEq, Eq)]
enum Round {
    Settled,
    Again,
}

// ---- the sets of the regions

// The union with the set of another region, within the limits.
fn unite(s: &mut [u64], to: usize, from: usize) -> Result<(), Refusal>
    requires { Uniting s.old to from }
    ensures { (limits (union_of (set_of s.old from) (set_of s.old to)) ≡ answered result (set_of s.new to)) × Within to s.old s.new }
{
    if sets::union(s, to, from) {
        return Ok(());
    }
    Err(Refusal::TooManyConjuncts)
}

// Before the first branch of an if: its set in the second region after that at b.
fn open_branch(s: &mut [u64], b: usize)
    requires { b + 3 * region_words ≤ length s.old }
    ensures { BranchOpened b s.old s.new }
{
    sets::copy(s, b + 2 * sets::REGION, b);
}

// Between the branches of an if: what the first one gave in the first region after that at b, and
// the set of the other one in the second.
fn switch_branch(s: &mut [u64], b: usize)
    requires { b + 3 * region_words ≤ length s.old }
    ensures { BranchSwitched b s.old s.new }
{
    let other = b + 2 * sets::REGION;
    sets::copy(s, b + sets::REGION, other);
    sets::copy(s, other, b);
}

// After the branches of an if: the union of what they gave, in the region at b.
fn close_branch(s: &mut [u64], b: usize) -> Result<(), Refusal>
    requires { TwoTidy 3 s.old b (b + region_words) (b + 2 * region_words) }
    ensures { (limits (union_of (set_of s.old (b + region_words)) (set_of s.old (b + 2 * region_words))) ≡ answered result (set_of s.new b))
        × Below b s.old s.new }
{
    let first = b + sets::REGION;
    let other = b + 2 * sets::REGION;
    unite(s, other, first)?;
    sets::copy(s, b, other);
    Ok(())
}

// Before the rounds of a while: its set in both regions after that at b.
fn open_rounds(s: &mut [u64], b: usize)
    requires { b + 3 * region_words ≤ length s.old }
    ensures { RoundsOpened b s.old s.new }
{
    sets::copy(s, b + sets::REGION, b);
    sets::copy(s, b + 2 * sets::REGION, b);
}

// At the end of a round from the set of the first region after that at b, where the second has what
// the body gave: the set that it is joined with is that of the region at b.
fn join_start(s: &mut [u64], b: usize) -> Result<Round, Refusal>
    requires { TwoTidy 3 s.old b b (b + 2 * region_words) }
    ensures { Closed false result b s.old s.new }
{
    let last = b + sets::REGION;
    let next = b + 2 * sets::REGION;
    unite(s, next, b)?;
    let settled = sets::equal(s, last, next);
    sets::copy(s, last, next);
    if settled {
        return Ok(Round::Settled);
    }
    Ok(Round::Again)
}

// At the end of a light round, where the second region after that at b has what the body gave: what of
// it the first has not is new there, and is walked next. The third is room to work in.
fn join_new(s: &mut [u64], b: usize) -> Result<Round, Refusal>
    requires { TwoTidy 4 s.old b (b + region_words) (b + 2 * region_words) }
    ensures { Closed true result b s.old s.new }
{
    let all = b + sets::REGION;
    let given = b + 2 * sets::REGION;
    let new = b + 3 * sets::REGION;
    sets::subtract(s, new, given, all);
    if sets::size(s, new) == 0 {
        return Ok(Round::Settled);
    }
    unite(s, all, new)?;
    sets::copy(s, given, new);
    Ok(Round::Again)
}

// At the end of a round, light or not. A flag and no closure: the walk of an inner while goes on with it.
fn close_round(s: &mut [u64], light: bool, b: usize) -> Result<Round, Refusal>
    requires { Closing b s.old }
    ensures { Closed light result b s.old s.new }
{
    if light {
        return join_new(s, b);
    }
    join_start(s, b)
}

// ---- the labels

// Where the statement or the block begins that ends at the label i.
fn beginning(s: &[u64], i: usize) -> usize
    requires { (table_words ≤ length s.now) × (i < most_rows) }
    ensures { result ≡ first_of (stmts s.now i) (mates s.now) i }
{
    if code_table::kind_at(s, 0, i) < 11 {
        return i;
    }
    code_table::mate(s, 0, i)
}

// ---- the walk

// The two branches of an if on the labels from p up to e and from e + 1 up to f.
#[cycle(branch_repeat_rounds_settle_turn_walk_in_walk_with)]
fn branch(
    s: &mut [u64],
    depth: usize,
    light: bool,
    b: usize,
    p: usize,
    e: usize,
    f: usize,
    m: Footprint,
) -> Result<(), Refusal>
    requires { Flagged m most_inside 4 s.old depth b f × TwoPieces s.old depth p e f }
    ensures { Branches light result p e f b s.old s.new }
{
    open_branch(s, b);
    let inner = b + 2 * sets::REGION;
    walk_with(s, depth, light, inner, p, e, m)?;
    switch_branch(s, b);
    walk_with(s, depth, light, inner, e + 1, f, m)?;
    close_branch(s, b)
}

// The rounds of a while whose body lies on the labels from p up to q, all light or none. The set that
// they come to is in the region after that at b, whose own stays.
#[cycle(branch_repeat_rounds_settle_turn_walk_in_walk_with)]
fn rounds(
    s: &mut [u64],
    depth: usize,
    light: bool,
    b: usize,
    p: usize,
    q: usize,
) -> Result<(), Refusal>
    requires { Ready most_inside 4 s.old depth b q × Piece s.old depth p q }
    ensures { Rounded light result p q b s.old s.new }
{
    open_rounds(s, b);
    let inner = b + 2 * sets::REGION;
    let mut k: usize = 0;
    // A loop that yields by break, and no for: the form that document 01 names (docs/DECISIONS.md).
    loop {
        if MOST_ROUNDS <= k {
            break Err(Refusal::NeverSettles);
        }
        match walk_in(s, depth, light, inner, p, q) {
            Err(refusal) => break Err(refusal),
            Ok(_) => match close_round(s, light, b) {
                Err(refusal) => break Err(refusal),
                Ok(Round::Settled) => break Ok(()),
                Ok(Round::Again) => k += 1,
            },
        }
    }
}

// The rounds as the definition has them: light ones first, and one round on all that they come to. Where
// either refuses, the definition's own rounds decide.
#[cycle(branch_repeat_rounds_settle_turn_walk_in_walk_with)]
fn settle(s: &mut [u64], depth: usize, b: usize, p: usize, q: usize) -> Result<(), Refusal>
    requires { Ready most_inside 4 s.old depth b q × Piece s.old depth p q }
    ensures { Rounded false result p q b s.old s.new }
{
    if rounds(s, depth, true, b, p, q).is_ok() {
        let inner = b + 2 * sets::REGION;
        sets::copy(s, inner, b + sets::REGION);
        if walk_in(s, depth, false, inner, p, q).is_ok() {
            return Ok(());
        }
    }
    rounds(s, depth, false, b, p, q)
}

// A while whose body lies on the labels from p up to q.
#[cycle(branch_repeat_rounds_settle_turn_walk_in_walk_with)]
fn repeat(
    s: &mut [u64],
    depth: usize,
    light: bool,
    b: usize,
    p: usize,
    q: usize,
) -> Result<(), Refusal>
    requires { Ready most_inside 4 s.old depth b q × Piece s.old depth p q }
    ensures { Loops light result p q b s.old s.new }
{
    if light {
        rounds(s, depth, true, b, p, q)?;
    } else {
        settle(s, depth, b, p, q)?;
    }
    sets::copy(s, b, b + sets::REGION);
    Ok(())
}

// One statement or block, on the labels from p up to q.
#[cycle(branch_repeat_rounds_settle_turn_walk_in_walk_with)]
fn turn(
    s: &mut [u64],
    depth: usize,
    light: bool,
    b: usize,
    p: usize,
    q: usize,
    m: Footprint,
) -> Result<(), Refusal>
    requires { Flagged m most_nested 2 s.old depth b q × Single s.old depth p q }
    ensures { WalkedBy light (stmts s.old) (mates s.old) result p q b s.old s.new }
{
    let d = code_table::fetch(s, 0, p);
    let kind = d.kind;
    match kind {
        11 => {
            let other = code_table::mate(s, 0, p);
            branch(s, depth - 1, light, b, p + 1, other, q - 1, m)
        }
        14 => repeat(s, depth - 1, light, b, p + 1, q - 1),
        _ => rules::rule(s, b, p as u64, d),
    }
}

// The walk, light or not, of the piece on the labels from p up to q on the set of the region at b, which the
// flags cover. What a statement or a block may bring is added to them; they are made anew where that takes
// longer, or has made them too many. From that region on, 2 * depth + 2 regions are its own.
#[cycle(branch_repeat_rounds_settle_turn_walk_in_walk_with)]
fn walk_with(
    s: &mut [u64],
    depth: usize,
    light: bool,
    b: usize,
    p: usize,
    q: usize,
    flags: Footprint,
) -> Result<(), Refusal>
    requires { Flagged flags most_nested 2 s.old depth b q × Piece s.old depth p q }
    ensures { WalkedBy light (stmts s.old) (mates s.old) result p q b s.old s.new }
{
    let mut m = flags;
    let mut r = footprint::spared_plain(s, m, p, q);
    // A while: the label goes back by a statement or a block.
    while p < r {
        let l = beginning(s, r - 1);
        m = footprint::renewed(s, m, b, l, r);
        if !footprint::spares_all(s, m, l, r) {
            turn(s, depth, light, b, l, r, m)?;
            m = footprint::flags_after(s, m, b, l, r);
        }
        r = footprint::spared_plain(s, m, p, l);
    }
    Ok(())
}

// The same, with the flags of the set.
#[cycle(branch_repeat_rounds_settle_turn_walk_in_walk_with)]
fn walk_in(
    s: &mut [u64],
    depth: usize,
    light: bool,
    b: usize,
    p: usize,
    q: usize,
) -> Result<(), Refusal>
    requires { Ready most_nested 2 s.old depth b q × Piece s.old depth p q }
    ensures { WalkedBy light (stmts s.old) (mates s.old) result p q b s.old s.new }
{
    let m = footprint::of_set(s, b);
    walk_with(s, depth, light, b, p, q, m)
}

// The walk of the piece on the labels from p up to q on the set of the region at b. From that region
// on, 2 * depth + 2 regions are its own.
pub fn walk(s: &mut [u64], depth: usize, b: usize, p: usize, q: usize) -> Result<(), Refusal>
    requires { Ready most_nested 2 s.old depth b q × Piece s.old depth p q }
    ensures { Walked (stmts s.old) (mates s.old) result p q b s.old s.new }
{
    walk_in(s, depth, false, b, p, q)
}
