// The listing of a condition as text in a lent output: the number of conjuncts, then a line for each
// with its place and its nodes. Each function puts one part of the text to a place and answers where
// it ends; the parts join as the model's text does.
#![tactic(auto)]

ghost use Rattle.std.specs.Prelude.{◌≡◌, cond, ◌+◌, ◌≤◌, ◌<◌, length, drop};
ghost use mathlib.Core.List.{[], ◌∷◌, ◌++◌, flat_map};
ghost use Rattle.arith.specs.Types.{signed};
ghost use Rattle.arith.specs.Whole.{value_of};
ghost use Rattle.model.specs.Decimal.{decimal, number};
ghost use Rattle.model.specs.Listing.{type_text_lem, node_name, node_text_lem, line_text, lines_from, listing_text, refusal_text};
ghost use Rattle.refusals.specs.Answers.{number_of};
ghost use Rattle.condition.specs.Answers.{node_from, part_nodes, conjuncts_of};
ghost use Rattle.listing.specs.Text.{Room, Puts, Lists, text_most, refusing, listed};

use condition::{Condition, Node};
use itoa::Buffer;
use refusals::Refusal;

// The bytes that an output needs for every listing.
pub const TEXT: usize = 370079;

// ---- numbers

fn put(out: &mut [u8], at: usize, text: &[u8]) -> usize
    requires { Room text.now at out.old }
    ensures { Puts text.now at out.old result out.new }
{
    let n = text.len();
    bytes_le::put_bytes(out, at, text, n);
    at + n
}

fn put_decimal(out: &mut [u8], at: usize, n: u64) -> usize
    requires { Room (decimal n) at out.old }
    ensures { Puts (decimal n) at out.old result out.new }
{
    let mut buffer = Buffer::new();
    put(out, at, buffer.format(n).as_bytes())
}

fn put_number(out: &mut [u8], at: usize, z: arith::Num) -> usize
    requires { Room (number (value_of z)) at out.old }
    ensures { Puts (number (value_of z)) at out.old result out.new }
{
    if !z.neg || z.mag == 0 {
        return put_decimal(out, at, z.mag);
    }
    out[at] = b'-';
    put_decimal(out, at + 1, z.mag)
}

// ---- a node

fn letter(ty: u8) -> u8
    ensures { result ≡ cond (signed ty) 105 117 }
{
    if ty < 4 { b'u' } else { b'i' }
}

// A type behind its colon.
fn put_type(out: &mut [u8], at: usize, ty: u8) -> usize
    requires { Room (type_text_lem ty) at out.old }
    ensures { Puts (type_text_lem ty) at out.old result out.new }
{
    out[at] = b':';
    let next = at + 1;
    out[next] = letter(ty);
    let range = arith::range_of(ty % 4);
    put_decimal(out, next + 1, range.bits as u64)
}

// The number n of a reading in its brackets, "<n>".
fn put_count(out: &mut [u8], at: usize, n: u64) -> usize
    requires { Room (60 ∷ (decimal n ++ (62 ∷ []))) at out.old }
    ensures { Puts (60 ∷ (decimal n ++ (62 ∷ []))) at out.old result out.new }
{
    out[at] = b'<';
    let next = put_decimal(out, at + 1, n);
    out[next] = b'>';
    next + 1
}

fn put_reading(out: &mut [u8], at: usize, field: usize, n: u64) -> usize
    requires { Room (102 ∷ (decimal field ++ (60 ∷ (decimal n ++ (62 ∷ []))))) at out.old }
    ensures { Puts (102 ∷ (decimal field ++ (60 ∷ (decimal n ++ (62 ∷ []))))) at out.old result out.new }
{
    out[at] = b'f';
    let next = put_decimal(out, at + 1, field as u64);
    put_count(out, next, n)
}

// A node without its type, by its kind.
fn put_name(out: &mut [u8], at: usize, v: Node) -> usize
    requires { Room (node_name (node_from v)) at out.old }
    ensures { Puts (node_name (node_from v)) at out.old result out.new }
{
    let kind = v.kind;
    match kind {
        0 => put_number(out, at, arith::immediate(v.ty, v.imm)),
        1 => put_reading(out, at, v.field, v.imm),
        2 => put(out, at, b"add"),
        3 => put(out, at, b"sub"),
        4 => put(out, at, b"mul"),
        5 => put(out, at, b"div"),
        _ => put(out, at, b"to"),
    }
}

// A node with its type, behind a blank.
fn put_node(out: &mut [u8], at: usize, v: Node) -> usize
    requires { Room (node_text_lem (node_from v)) at out.old }
    ensures { Puts (node_text_lem (node_from v)) at out.old result out.new }
{
    out[at] = b' ';
    let next = put_name(out, at + 1, v);
    put_type(out, next, v.ty)
}

// ---- a conjunct

// The nodes of a part, from the node k on.
fn put_nodes(out: &mut [u8], at: usize, part: &[u8]) -> usize
    requires { Room (flat_map node_text_lem (part_nodes part.now)) at out.old }
    ensures { Puts (flat_map node_text_lem (part_nodes part.now)) at out.old result out.new }
{
    let n = part.len() / 8;
    let mut next = at;
    for k in 0..n {
        next = put_node(out, next, condition::node_at(part, k));
    }
    next
}

// The line of a conjunct: its place, a colon, its nodes, and the line's end.
fn put_line(out: &mut [u8], at: usize, place: usize, part: &[u8]) -> usize
    requires { Room (line_text place (part_nodes part.now)) at out.old }
    ensures { Puts (line_text place (part_nodes part.now)) at out.old result out.new }
{
    let colon = put_decimal(out, at, place as u64);
    out[colon] = b':';
    let end = put_nodes(out, colon + 1, part);
    out[end] = b'\n';
    end + 1
}

// ---- the whole

// The lines of all conjuncts.
fn put_lines(out: &mut [u8], at: usize, condition: &Condition) -> usize
    requires { Room (lines_from 0 (conjuncts_of condition.now)) at out.old }
    ensures { Puts (lines_from 0 (conjuncts_of condition.now)) at out.old result out.new }
{
    let n = condition.conjuncts();
    let mut next = at;
    for i in 0..n {
        next = put_line(out, next, i, condition.conjunct(i));
    }
    next
}

// The number of conjuncts, and a line for each.
fn put_conjuncts(out: &mut [u8], condition: &Condition) -> usize
    requires { text_most ≤ length out.old }
    ensures { Puts (listing_text (conjuncts_of condition.now)) 0 out.old result out.new }
{
    let n = condition.conjuncts();
    let first = put(out, 0, b"conjuncts ");
    let end = put_decimal(out, first, n as u64);
    out[end] = b'\n';
    put_lines(out, end + 1, condition)
}

fn put_refusal(out: &mut [u8], n: u8) -> usize
    requires { text_most ≤ length out.old }
    ensures { Puts (refusal_text n) 0 out.old result out.new }
{
    let first = put(out, 0, b"refused ");
    let end = put_decimal(out, first, n as u64);
    out[end] = b'\n';
    end + 1
}

// The text of a refusal by its number at the start of the output, and how many bytes it has; none where the
// output is shorter than TEXT. Any number is taken, not a `Refusal`'s alone: the contract holds for all.
pub fn refusal(n: u8, out: &mut [u8]) -> usize
    ensures { Lists (refusing (length out.old) n) out.old result out.new }
{
    if out.len() < TEXT {
        return 0;
    }
    put_refusal(out, n)
}

// The listing of a condition file at the start of the output, and how many bytes it has; none where
// the output is shorter than TEXT. A file that is not in its form is listed as refused.
pub fn text(condition: &[u8], out: &mut [u8]) -> usize
    ensures { Lists (listed (length out.old) condition.now) out.old result out.new }
{
    if out.len() < TEXT {
        return 0;
    }
    match condition::read(condition) {
        Ok(condition) => put_conjuncts(out, &condition),
        Err(refusal) => put_refusal(out, u8::from(refusal)),
    }
}
