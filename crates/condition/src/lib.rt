// The reader of the condition file: every clause of its form is tested, each by a pass of its own or
// by one over the conjuncts; and what a filter needs of a condition that is read.
#![tactic(auto)]

ghost use Rattle.std.specs.Prelude.{◌≡◌, true, ◌&&◌, List, map, length};
ghost use Prim.Native.Nat.{ℕ, ◌+◌, ◌*◌, ◌/◌, ◌%◌, ◌≤◌, ◌<◌, compare};
ghost use Rattle.model.specs.Lists.{every};
ghost use Rattle.model.specs.Refusals.{ok, check, mapped, wrong_condition};
ghost use Rattle.model.specs.Sizes.{field_size, most_fields, most_nodes, node_size, pair_size_lem};
ghost use Rattle.model.specs.Bytes.{part, pair_at, pairs_at, chained};
ghost use Rattle.model.specs.Fields.{entry_of, field_right, types_in, fields_in};
ghost use Rattle.model.specs.Conjunct.{◌then◌, order_numbers};
ghost use Rattle.model.specs.Condition.{node_at, node_right_lem, conjunct_at, whole, numbered, is_before, rising, read_condition};
ghost use Rattle.condition.specs.Answers.{constant_right_lem, reading_right_lem, operation_right_lem, right_by_lem, NodeIs, EntryIs, node_out};
ghost use Rattle.condition.specs.Answers.{conjunct_answer, formed, part_nodes, part_right_lem, pair_part, pair_right, sizes, condition_answer, bytes_answer};
ghost use Rattle.condition.specs.Answers.{ConditionIsRead, PairInside, ConjunctIs, counts_of, fields_of, conjuncts_of, types_at, pair_place, pairs_of, linked};

use refusals::Refusal;
use std::marker::Model;

// ---- the sizes of the condition file

// the bytes of the two counts at its start, of the entry of a field, of a pair of offset and length, of a node
const COUNTS_SIZE: usize = 8;

const FIELD_SIZE: usize = fields::SIZE;

const PAIR_SIZE: usize = 8;

const NODE_SIZE: usize = 8;

const MOST_FIELDS: usize = 32;

const MOST_CONJUNCTS: usize = 64;

// the nodes of the longest conjunct, and its bytes
const MOST_NODES: usize = 120;

const LONGEST_PART: usize = NODE_SIZE * MOST_NODES;

// the cells of the stack of types, not fewer than nodes
const STACK: usize = 128;

// ---- the codes of types, and the kinds of nodes: those before the sum are pushed, those from it up to the conversion are operations

const TYPE_CODES: u8 = 8;

const CONSTANT: u8 = 0;

const READING: u8 = 1;

const SUM: u8 = 2;

const CONVERSION: u8 = 6;

// how many kinds a file may hold
const FILE_KINDS: u8 = 7;

// A node by its numbers.
#[derive(Clone, Copy)]
pub struct Node {
    pub kind: u8,
    pub ty: u8,
    pub field: usize,
    pub imm: u64,
}

// How many conjuncts and fields a condition has.
#[derive(Clone, Copy)]
pub struct Counts {
    pub conjuncts: usize,
    pub fields: usize,
}

// A condition that is read: its bytes, and its counts. A proof sees the bytes.
#[derive(Clone, Drop)]
pub struct Condition<'a> {
    bytes: &'a [u8],
    counts: Counts,
}

impl<'a> Model for Condition<'a> {
    ghost Value = { List ℕ };

    ghost view = { λ c. c.bytes.now };

    ghost invariant = { λ c. ConditionIsRead c.bytes.now c.counts };
}

// The node with a number in a part.
pub fn node_at(part: &[u8], k: usize) -> Node
    requires { node_size * k + node_size ≤ length part.now }
    ensures { NodeIs result part.now (node_size * k) }
{
    let at = NODE_SIZE * k;
    let field = bytes_le::u16_at(part, at + 2) as usize;
    let imm = bytes_le::u32_at(part, at + 4);
    Node {
        kind: part[at],
        ty: part[at + 1],
        field,
        imm,
    }
}

// A constant inside its type; the field number is not used.
fn constant_right(ty: u8, field: usize, imm: u64) -> bool
    ensures { result ≡ constant_right_lem ty field imm }
{
    ty < TYPE_CODES
        && field == 0
        && arith::is_of_type(arith::range_of(ty), arith::immediate(ty, imm))
}

// A reading of a listed field in its type.
fn reading_right(fields: &[u8], ty: u8, field: usize) -> bool
    ensures { result ≡ reading_right_lem (types_in (fields_in fields.now)) ty field }
{
    field < fields.len() / FIELD_SIZE && ty == fields[FIELD_SIZE * field]
}

// An operation or a conversion: only the type is used.
fn operation_right(ty: u8, field: usize, imm: u64) -> bool
    ensures { result ≡ operation_right_lem ty field imm }
{
    ty < TYPE_CODES && field == 0 && imm == 0
}

// A node's form, by its kind.
fn node_right(fields: &[u8], v: Node) -> bool
    ensures { result ≡ right_by_lem (types_in (fields_in fields.now)) v.kind v.ty v.field v.imm }
{
    match v.kind {
        CONSTANT => constant_right(v.ty, v.field, v.imm),
        READING => reading_right(fields, v.ty, v.field),
        kind => kind < FILE_KINDS && operation_right(v.ty, v.field, v.imm),
    }
}

// The node with a number in a part, if it has its form.
fn read_node(fields: &[u8], part: &[u8], k: usize) -> Result<Node, Refusal>
    requires { node_size * k + node_size ≤ length part.now }
    ensures { (node_out result ≡ check (node_right_lem (types_in (fields_in fields.now)) part.now (node_size * k)) wrong_condition
        (ok (node_at part.now (node_size * k)))) × EntryIs result part.now (node_size * k) }
{
    let v = node_at(part, k);
    if !node_right(fields, v) {
        return Err(Refusal::WrongCondition);
    }
    Ok(v)
}

// Every node of a part has its form, and the part is one whole expression in which types agree. The
// types on the stack stand from the bottom up, in an array with a height: nothing is allocated.
fn read_nodes(fields: &[u8], part: &[u8]) -> Result<(), Refusal>
    requires { length part.now ≤ node_size * most_nodes }
    ensures { conjunct_answer result ≡ formed (part_right_lem (types_in (fields_in fields.now)) part.now && whole (part_nodes part.now)) }
{
    let n = part.len() / NODE_SIZE;
    let mut stack: [u8; STACK] = [0; STACK];
    let mut height: usize = 0;
    for k in 0..n {
        // let .. else, and no ?: the form that document 01 names for a reader's entry (docs/DECISIONS.md).
        let Ok(v) = read_node(fields, part, k) else {
            return Err(Refusal::WrongCondition);
        };
        let ty = v.ty;
        if v.kind < SUM {
            stack[height] = ty;
            height += 1;
            continue;
        }
        if v.kind < CONVERSION {
            if height < 2 {
                return Err(Refusal::WrongCondition);
            }
            if stack[height - 1] != ty {
                return Err(Refusal::WrongCondition);
            }
            if stack[height - 2] != ty {
                return Err(Refusal::WrongCondition);
            }
            height -= 1;
            continue;
        }
        if height == 0 {
            return Err(Refusal::WrongCondition);
        }
        stack[height - 1] = ty;
    }
    if height != 1 {
        return Err(Refusal::WrongCondition);
    }
    Ok(())
}

// The n of each field count from 1 by first appearance: each is one met before or the next one.
fn is_numbered(fields: &[u8], part: &[u8]) -> bool
    requires { (length fields.now ≤ field_size * most_fields) × (part_right_lem (types_in (fields_in fields.now)) part.now ≡ true) }
    ensures { result ≡ numbered (part_nodes part.now) }
{
    let n = part.len() / NODE_SIZE;
    let mut seen: [u64; MOST_FIELDS] = [0; MOST_FIELDS];
    for k in 0..n {
        let v = node_at(part, k);
        let kind = v.kind;
        if kind != READING {
            continue;
        }
        let f = v.field;
        let i = v.imm;
        let last = seen[f];
        if i == 0 {
            return false;
        }
        if i <= last {
            continue;
        }
        if i - 1 != last {
            return false;
        }
        seen[f] = i;
    }
    true
}

// By length, then by bytes, smaller first byte first.
fn comes_before(a: &[u8], b: &[u8]) -> bool
    ensures { result ≡ is_before
        (compare (length a.now) (length b.now) then order_numbers a.now b.now) }
{
    if a.len() != b.len() {
        return a.len() < b.len();
    }
    // No a < b: the library's order of slices takes longer for each byte that is the same.
    for i in 0..a.len() {
        let x = a[i];
        let y = b[i];
        if x < y {
            return true;
        }
        if y < x {
            return false;
        }
    }
    false
}

// The parts of the pairs from a place on stand one after the other, from start to the file's end.
fn is_chained(condition: &[u8], at: usize, count: usize, start: usize) -> bool
    requires { at + pair_size_lem * count ≤ length condition.now }
    ensures { result ≡ chained start (pairs_at condition.now at count) (length condition.now) }
{
    let mut next = start;
    for i in 0..count {
        let here = at + PAIR_SIZE * i;
        let offset = bytes_le::u32_at(condition, here) as usize;
        let len = bytes_le::u32_at(condition, here + 4) as usize;
        if offset != next {
            return false;
        }
        next = offset + len;
    }
    next == condition.len()
}

// The part of the conjunct with a number, in a file with so many fields.
fn part_of(condition: &[u8], fields: usize, i: usize) -> &[u8]
    requires { PairInside condition.now fields (pair_place fields i) }
    ensures { result.now ≡ pair_part condition.now (pair_place fields i) }
{
    let at = COUNTS_SIZE + FIELD_SIZE * fields + PAIR_SIZE * i;
    let start = bytes_le::u32_at(condition, at) as usize;
    let len = bytes_le::u32_at(condition, at + 4) as usize;
    let end = start + len;
    &condition[start..end]
}

// A part is a conjunct in its form.
fn read_conjunct(fields: &[u8], part: &[u8]) -> Result<(), Refusal>
    requires { (length fields.now ≤ field_size * most_fields) × (length part.now ≤ node_size * most_nodes) }
    ensures { conjunct_answer result ≡ formed
        (part_right_lem (types_in (fields_in fields.now)) part.now && whole (part_nodes part.now) && numbered (part_nodes part.now)) }
{
    read_nodes(fields, part)?;
    if !is_numbered(fields, part) {
        return Err(Refusal::WrongCondition);
    }
    Ok(())
}

// The conjunct with a number: from one node to as many as it may have, in its form.
fn read_pair(condition: &[u8], fields: usize, i: usize) -> Result<(), Refusal>
    requires { PairInside condition.now fields (pair_place fields i) }
    ensures { conjunct_answer result ≡ formed
        (pair_right (types_at condition.now fields) condition.now (pair_at condition.now (pair_place fields i))) }
{
    let held = part_of(condition, fields, i);
    let len = held.len();
    if len == 0 {
        return Err(Refusal::WrongCondition);
    }
    if LONGEST_PART < len {
        return Err(Refusal::WrongCondition);
    }
    if len % NODE_SIZE != 0 {
        return Err(Refusal::WrongCondition);
    }
    let end = COUNTS_SIZE + FIELD_SIZE * fields;
    read_conjunct(&condition[COUNTS_SIZE..end], held)
}

// Every conjunct is in its form.
fn read_conjuncts(condition: &[u8], fields: usize, count: usize) -> Result<(), Refusal>
    requires { (fields ≤ most_fields)
        × (linked condition.now fields count ≡ true) }
    ensures { conjunct_answer result ≡ formed
        (every (pair_right (types_at condition.now fields) condition.now)
        (pairs_of condition.now fields count)) }
{
    for i in 0..count {
        read_pair(condition, fields, i)?;
    }
    Ok(())
}

// The conjuncts stand in rising order, none twice: each before the next.
fn is_rising(condition: &[u8], fields: usize, count: usize) -> bool
    requires { (fields ≤ most_fields) × (linked condition.now fields count ≡ true)
        × (every (pair_right (types_at condition.now fields) condition.now) (pairs_of condition.now fields count) ≡ true) }
    ensures { result ≡ rising (map (conjunct_at condition.now) (pairs_of condition.now fields count)) }
{
    for i in 0..count.saturating_sub(1) {
        let a = part_of(condition, fields, i);
        let b = part_of(condition, fields, i + 1);
        if !comes_before(a, b) {
            return false;
        }
    }
    true
}

// The condition's form. Every refusal has the same number, so the order of the tests does not show.
pub fn read(condition: &[u8]) -> Result<Condition<'_>, Refusal>
    ensures numbers { condition_answer result ≡ mapped sizes (read_condition condition.now) }
    ensures bytes { bytes_answer result ≡ mapped (λ C. condition.now) (read_condition condition.now) }
{
    if condition.len() < COUNTS_SIZE {
        return Err(Refusal::WrongCondition);
    }
    let conjuncts = bytes_le::u32_at(condition, 0) as usize;
    let fields = bytes_le::u32_at(condition, 4) as usize;
    if MOST_CONJUNCTS < conjuncts {
        return Err(Refusal::WrongCondition);
    }
    if MOST_FIELDS < fields {
        return Err(Refusal::WrongCondition);
    }
    let at = COUNTS_SIZE + FIELD_SIZE * fields;
    let start = at + PAIR_SIZE * conjuncts;
    if condition.len() < start {
        return Err(Refusal::WrongCondition);
    }
    if !is_chained(condition, at, conjuncts, start) {
        return Err(Refusal::WrongCondition);
    }
    if !fields::all_right(&condition[COUNTS_SIZE..at]) {
        return Err(Refusal::WrongCondition);
    }
    read_conjuncts(condition, fields, conjuncts)?;
    if !is_rising(condition, fields, conjuncts) {
        return Err(Refusal::WrongCondition);
    }
    let counts = Counts { conjuncts, fields };
    Ok(Condition {
        bytes: condition,
        counts,
    })
}

impl<'a> Condition<'a> {
    // The condition of bytes that are known to be in their form, with these counts.
    pub fn in_form(bytes: &'a [u8], counts: Counts) -> Condition<'a>
        requires { ConditionIsRead bytes.now counts }
        ensures { result ≡ bytes.now }
    {
        Condition { bytes, counts }
    }

    // Its counts.
    pub fn counts(&self) -> Counts
        ensures { ConditionIsRead self.now result }
    {
        let counts = self.counts;
        counts
    }

    // How many conjuncts it has.
    pub fn conjuncts(&self) -> usize
        ensures many { result ≡ length (conjuncts_of self.now) }
        ensures read { ConditionIsRead self.now (counts_of self.now) }
    {
        self.counts.conjuncts
    }

    // The conjunct with a number, as the part that starts at its offset.
    pub fn conjunct(&self, i: usize) -> &'a [u8]
        requires { i < length (conjuncts_of self.now) }
        ensures { ConjunctIs self.now (counts_of self.now) i result.now }
    {
        part_of(self.bytes, self.counts.fields, i)
    }

    // The table of its fields.
    pub fn fields(&self) -> &'a [u8]
        ensures table { (fields_in result.now ≡ fields_of self.now) × (length result.now ≡ field_size * length (fields_of self.now)) }
        ensures read { ConditionIsRead self.now (counts_of self.now) }
    {
        let end = COUNTS_SIZE + FIELD_SIZE * self.counts.fields;
        &self.bytes[COUNTS_SIZE..end]
    }
}
