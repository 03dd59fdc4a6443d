// The field table, as it lies in a program and in a condition: two bytes a field, its type and 128 plus the number of its bits.
#![tactic(auto)]

ghost use Rattle.std.specs.Prelude.{◌≡◌, ◌+◌, ◌≤◌, length, get_or};
ghost use Rattle.model.specs.Lists.{every};
ghost use Rattle.model.specs.Sizes.{field_size};
ghost use Rattle.model.specs.Fields.{field_at, field_right, types_in, fields_in};

// The bytes of a field's entry.
pub const SIZE: usize = 2;

// How much more than the number of a field's bits its second byte is.
pub const OVER_BITS: u8 = 128;

// How many type codes there are.
const TYPE_CODES: u8 = 8;

// The type of a field, 0 past the last.
pub fn type_of(table: &[u8], f: usize) -> u8
    ensures { result ≡ get_or (types_in (fields_in table.now)) f 0 }
{
    if table.len() / SIZE <= f {
        return 0;
    }
    table[SIZE * f]
}

// Whether the entry at a place has a type code, and 1 to its width in bits.
fn entry_right(table: &[u8], at: usize) -> bool
    requires { at + field_size ≤ length table.now }
    ensures { result ≡ field_right (field_at table.now at) }
{
    let ty = table[at];
    if TYPE_CODES <= ty {
        return false;
    }
    let size = table[at + 1];
    if size <= OVER_BITS {
        return false;
    }
    let range = arith::range_of(ty);
    (size - OVER_BITS) as u32 <= range.bits
}

// Whether every entry is right.
pub fn all_right(table: &[u8]) -> bool
    ensures { result ≡ every field_right (fields_in table.now) }
{
    let n = table.len() / SIZE;
    for f in 0..n {
        if !entry_right(table, SIZE * f) {
            return false;
        }
    }
    true
}
