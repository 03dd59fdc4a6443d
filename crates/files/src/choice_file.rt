// The file of a run's limit and choices: a limit of 4 bytes, in which 0 stands for 10,000, and then
// 2 bytes a choice. Missing bytes of the limit count as 0.
ghost use Rattle.std.specs.Prelude.{◌≡◌, ◌<◌, drop};
ghost use Rattle.model.specs.Bytes.{byte_at};
ghost use Rattle.files.specs.Limit.{limit_size, limit_in};

// The bytes of the limit.
const LIMIT_SIZE: usize = 4;
// The limit that 0 stands for.
const USUAL_LIMIT: u32 = 10000;

// The byte at a place, 0 past the end.
fn byte_at(file: &[u8], i: usize) -> u64
    ensures { (result ≡ byte_at file.now i) × (result < 256) }
{
    u64::from(file.get(i).copied().unwrap_or(0))
}

// The limit of the run.
pub fn limit(file: &[u8]) -> u32
    ensures { result ≡ limit_in file.now }
{
    let high = byte_at(file, 2) + 256 * byte_at(file, 3);
    let n = byte_at(file, 0) + 256 * (byte_at(file, 1) + 256 * high);
    if n == 0 {
        return USUAL_LIMIT;
    }
    n as u32
}

// The bytes of the choices.
pub fn choices(file: &[u8]) -> &[u8]
    ensures { result.now ≡ drop limit_size file.now }
{
    &file[LIMIT_SIZE.min(file.len())..]
}
