// The converter: a program of the old form, whose fields had a type alone, in the new form, where each has all
// bits of its type. The new file is made in bytes of its own and read as any program is; only one that is read is copied out.
#![tactic(auto)]

ghost use Rattle.std.specs.Prelude.{◌≡◌, ℕ, ◌+◌, length};
ghost use mathlib.Core.List.{flat_map};
ghost use Rattle.model.specs.Fields.{field_bytes, whole_field};
ghost use Rattle.model.specs.OldForm.{old_fields, later_pair, new_table, new_form, convert};
ghost use Rattle.bytes_le.specs.Overlay.{overlay};
ghost use Rattle.code_table.specs.Table.{table_words};
ghost use Rattle.program.specs.Reading.{ProgramIsRead};
ghost use Rattle.widening.specs.Converting.{OldTable, Widenable, LaterPair, Widened, Room, Lent, Copied, conversion, Converts};

use program::Program;
use refusals::Refusal;

// The bytes of the longest program.
pub const PROGRAM: usize = 8416;

// The words of scratch: the code table.
pub const SCRATCH: usize = code_table::WORDS;

// The bytes of the section table.
const SECTION_TABLE: usize = 32;

const FIELD_SIZE: usize = fields::SIZE;

// How much more than the number of a field's bits its second byte is.
const OVER_BITS: u8 = fields::OVER_BITS;

const MOST_FIELDS: usize = 32;

// ---- the new file

// The pair of a section behind the fields: it begins as many bytes later as there are fields.
fn put_later(old: &[u8], file: &mut [u8], at: usize, count: usize)
    requires { LaterPair old.now at count file.old }
    ensures { file.new ≡ overlay file.old at (later_pair old.now at) }
{
    let begin = bytes_le::u32_at(old, at) + count as u64;
    let len = bytes_le::u32_at(old, at + 4);
    bytes_le::put_u32(file, at, begin);
    bytes_le::put_u32(file, at + 4, len);
}

// The section table.
fn put_table(old: &[u8], file: &mut [u8], count: usize)
    requires { Widenable old.now count file.old }
    ensures { file.new ≡ overlay file.old 0 (new_table old.now) }
{
    bytes_le::put_u32(file, 0, SECTION_TABLE as u64);
    bytes_le::put_u32(file, 4, (FIELD_SIZE * count) as u64);
    put_later(old, file, 8, count);
    put_later(old, file, 16, count);
    put_later(old, file, 24, count);
}

// The second byte of a field that has all bits of its type; a type's code counts modulo 8.
fn whole_size(ty: u8) -> u8
    ensures { result ≡ (whole_field ty).size }
{
    let range = arith::range_of(ty % 8);
    OVER_BITS + range.bits as u8
}

// The fields, each with all bits of its type.
fn put_fields(old: &[u8], file: &mut [u8], count: usize)
    requires { Widenable old.now count file.old }
    ensures { file.new ≡ overlay file.old 32 (flat_map field_bytes (old_fields old.now)) }
{
    for f in 0..count {
        let ty = old[SECTION_TABLE + f];
        let at = SECTION_TABLE + FIELD_SIZE * f;
        file[at] = ty;
        file[at + 1] = whole_size(ty);
    }
}

// The new file; how many bytes it has.
fn widen(old: &[u8], file: &mut [u8], count: usize) -> usize
    requires { Widenable old.now count file.old }
    ensures { Widened old.now result file.old file.new }
{
    put_table(old, file, count);
    put_fields(old, file, count);
    let from = SECTION_TABLE + count;
    let n = old.len();
    let rest = &old[from..n];
    bytes_le::put_bytes(file, from + count, rest, n - from);
    n + count
}

// ---- the whole

// A new file that is listed is copied to the output, if it can be written out; how many bytes it has.
fn copy_read(program: &Program, output: &mut [u8], scratch: &mut [u64]) -> Result<usize, Refusal>
    requires { ProgramIsRead program.now × Room program.now output.old scratch.old }
    ensures { Copied program.now result output.old output.new }
{
    inliner::load(program, scratch, 0)?;
    let new = program.bytes();
    let n = new.len();
    bytes_le::put_bytes(output, 0, new, n);
    Ok(n)
}

// Of an old file whose section table is right and which has few fields. Checks 4 to 8 and 16 are those of the new file.
fn convert_few(
    old: &[u8],
    output: &mut [u8],
    scratch: &mut [u64],
    count: usize,
) -> Result<usize, Refusal>
    requires { OldTable old.now count × Lent output.old scratch.old }
    ensures { Converts (convert old.now) result output.old output.new scratch.old scratch.new }
{
    let mut file: [u8; PROGRAM] = [0; PROGRAM];
    let n = widen(old, &mut file, count);
    let new = &file[0..n];
    let program = program::read(new)?;
    copy_read(&program, output, &mut scratch[0..SCRATCH])
}

// The new file of an old one, over the first bytes of an output of at least PROGRAM bytes, with scratch of at least SCRATCH words;
// how many bytes it has.
pub fn convert(old: &[u8], output: &mut [u8], scratch: &mut [u64]) -> Result<usize, Refusal>
    ensures { Converts (conversion table_words (length output.old) (length scratch.old) old.now) result
        output.old output.new scratch.old scratch.new }
{
    if output.len() < PROGRAM || scratch.len() < SCRATCH {
        return Err(Refusal::LentTooShort);
    }
    if !program::old_sections_right(old) {
        return Err(Refusal::WrongSections);
    }
    let count = bytes_le::u32_at(old, 4) as usize;
    if MOST_FIELDS < count {
        return Err(Refusal::TooManyEntries);
    }
    convert_few(old, output, scratch, count)
}
