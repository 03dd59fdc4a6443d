// One node of a conjunct as one word, made and changed. What a word stands for is specs/Word.antt: every
// word is one node, and words stand in the order of their nodes.
ghost use Rattle.std.specs.Prelude.{◌≡◌, true, List, ℕ, ◌+◌, ◌<◌, ◌^◌, ◌-◌, ◌*◌, ◌/◌, ◌%◌};
ghost use Rattle.model.specs.Values.{Operation, operation_kind};
ghost use Rattle.model.specs.Conjunct.{field, cell, const, atom, var, op, conv, bytes};
ghost use Rattle.model.specs.Walk.{zeroed};
ghost use Rattle.model.specs.Formed.{FileNode};
ghost use Rattle.model.specs.Touch.{is_var, is_load_lem};
ghost use Rattle.conjunct.specs.Word.{is_atom_lem, source_of, key_of, node_of, low4, file_bytes, LoadFits, OperationFits, place3, place4};

// the first word of each kind after the constants; the sums begin the operations
const READING: u64 = 0x01_00_0000_0000_0000;

const SUM: u64 = 0x02_00_0000_0000_0000;

const CONVERSION: u64 = 0x06_00_0000_0000_0000;

pub const VARIABLE: u64 = 0x07_00_0000_0000_0000;

pub const LOAD: u64 = 0x08_00_0000_0000_0000;

// the four low bytes in the other order
fn turned(v: u64) -> u64
    ensures { (result ≡ low4 v) × (result < 2 ^ 32) }
{
    v / 0x0100_0000 % 256 + 256 * (v / 0x01_0000 % 256 + 256 * (v / 256 % 256 + 256 * (v % 256)))
}

// ---- nodes made

pub fn constant(ty: u64, imm: u64) -> u64
    requires { (ty < 2 ^ 24) × (imm < 2 ^ 32) }
    ensures { node_of result ≡ const ty imm }
{
    ty * 0x01_0000_0000 + turned(imm)
}

pub fn variable(x: u64, ty: u64) -> u64
    requires { (x < 2 ^ 32) × (ty < 2 ^ 24) }
    ensures { node_of result ≡ var x ty }
{
    VARIABLE + ty * 0x01_0000_0000 + turned(x)
}

// a reading of the field with n 0
pub fn reading(f: u64, ty: u64) -> u64
    requires { (f < 2 ^ 16) × (ty < 2 ^ 8) }
    ensures { node_of result ≡ atom (record { src = field f ty; n = 0 }) }
{
    READING + ty * 0x01_0000_0000_0000 + f % 256 * 0x0100_0000_0000 + f / 256 * 0x01_0000_0000
}

// a load at the label with n 0
pub fn load(label: u64, array: u64, len: u64, ty: u64) -> u64
    requires { LoadFits label array len ty }
    ensures { node_of result ≡ atom (record { src = cell label array len ty; n = 0 }) }
{
    LOAD + ty * 0x01_0000_0000_0000
        + label % 256 * 0x0100_0000_0000
        + label / 256 * 0x01_0000_0000
        + array * 0x01_0000
        + len
}

// an operation by its kind
pub fn operation(kind: u64, ty: u64) -> u64
    requires { OperationFits kind ty }
    ensures { (o : Operation) → operation_kind o ≡ kind → node_of result ≡ op o ty }
{
    kind * 0x01_00_0000_0000_0000 + ty
}

pub fn conversion(ty: u64) -> u64
    requires { ty < 2 ^ 56 }
    ensures { node_of result ≡ conv ty }
{
    CONVERSION + ty
}

// ---- nodes looked at

pub fn is_atom(w: u64) -> bool
    ensures { result ≡ is_atom_lem w }
{
    if w < SUM { READING <= w } else { LOAD <= w }
}

// the word of an atom without its n
pub fn source(w: u64) -> u64
    ensures { result ≡ key_of w }
{
    if w < SUM {
        return w - w % 0x01_0000_0000;
    }
    w - w / 0x0100_0000 % 256 * 0x0100_0000
}

pub fn is_variable(w: u64, x: u64) -> bool
    ensures { result ≡ is_var x (node_of w) }
{
    if w < VARIABLE {
        return false;
    }
    w < LOAD && turned(w) == x
}

// a word without the three bytes below its kind, which a variable's type is
fn untyped(w: u64) -> u64
    ensures { result ≡ w - w / place4 % place3 * place4 }
{
    w - w / 0x01_0000_0000 % 0x0100_0000 * 0x01_0000_0000
}

// is w the variable that v is, of whatever type?
pub fn same_variable(w: u64, v: u64) -> bool
    ensures { (x ty : ℕ) → node_of v ≡ var x ty → result ≡ is_var x (node_of w) }
{
    untyped(w) == untyped(v)
}

pub fn is_load(w: u64, array: u64, len: u64) -> bool
    ensures { result ≡ is_load_lem array len (node_of w) }
{
    if w < LOAD {
        return false;
    }
    w / 0x01_0000 % 256 == array && w % 0x01_0000 == len
}

// ---- nodes changed

// an atom with another n
pub fn numbered(w: u64, n: u64) -> u64
    requires { (is_atom_lem w ≡ true) × (n < 256) }
    ensures { node_of result ≡ atom (record { src = source_of w; n = n }) }
{
    source(w) + n * 0x0100_0000
}

// at the program's start variables and loads are 0
pub fn at_start(w: u64) -> u64
    ensures { node_of result ≡ zeroed (node_of w) }
{
    if w < VARIABLE {
        return w;
    }
    if w < LOAD {
        return w / 0x01_0000_0000 % 0x0100_0000 * 0x01_0000_0000;
    }
    (w / 0x01_0000_0000_0000 - 0x08_00) * 0x01_0000_0000
}

// ---- a node in a file

// the number whose 8 bytes, from the highest on, are the node's in a file
pub fn filed(w: u64) -> u64
    ensures { (types : List ℕ) → FileNode types (node_of w) → bytes (node_of w) ≡ file_bytes result }
{
    if w < READING {
        return w / 0x01_0000_0000 % 256 * 0x01_0000_0000_0000 + w % 0x01_0000_0000;
    }
    if w < SUM {
        return w;
    }
    w / 0x01_00_0000_0000_0000 * 0x01_00_0000_0000_0000 + w % 256 * 0x01_0000_0000_0000
}
