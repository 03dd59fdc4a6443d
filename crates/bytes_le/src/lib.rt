// Little-endian numbers read from and written to byte slices. A read equals the model's number at a
// place; a write leaves the slice with the number's bytes stored from the place on and no other
// byte changed.
#![tactic(auto)]

ghost use Rattle.std.specs.Prelude.{◌≡◌, ◌+◌, ◌^◌, ◌≤◌, ◌<◌, length, take};
ghost use Rattle.model.specs.Bytes.{u16_at, u32_at, u64_at, bytes2, bytes4, bytes8};
ghost use Rattle.bytes_le.specs.Overlay.{overlay};

pub fn u16_at(s: &[u8], a: usize) -> u64
    requires { a + 2 ≤ length s.now }
    ensures { (result ≡ u16_at s.now a) × (result < 2 ^ 16) }
{
    u16::from_le_bytes([s[a], s[a + 1]]) as u64
}

pub fn u32_at(s: &[u8], a: usize) -> u64
    requires { a + 4 ≤ length s.now }
    ensures { (result ≡ u32_at s.now a) × (result < 2 ^ 32) }
{
    u32::from_le_bytes([s[a], s[a + 1], s[a + 2], s[a + 3]]) as u64
}

pub fn u64_at(s: &[u8], a: usize) -> u64
    requires { a + 8 ≤ length s.now }
    ensures { result ≡ u64_at s.now a }
{
    u64::from_le_bytes([
        s[a],
        s[a + 1],
        s[a + 2],
        s[a + 3],
        s[a + 4],
        s[a + 5],
        s[a + 6],
        s[a + 7],
    ])
}

pub fn put_u16(out: &mut [u8], a: usize, v: u64)
    requires { (a + 2 ≤ length out.old) × (v < 2 ^ 16) }
    ensures { out.new ≡ overlay out.old a (bytes2 v) }
{
    put_bytes(out, a, &(v as u16).to_le_bytes(), 2);
}

pub fn put_u32(out: &mut [u8], a: usize, v: u64)
    requires { (a + 4 ≤ length out.old) × (v < 2 ^ 32) }
    ensures { out.new ≡ overlay out.old a (bytes4 v) }
{
    put_bytes(out, a, &(v as u32).to_le_bytes(), 4);
}

pub fn put_u64(out: &mut [u8], a: usize, v: u64)
    requires { a + 8 ≤ length out.old }
    ensures { out.new ≡ overlay out.old a (bytes8 v) }
{
    put_bytes(out, a, &v.to_le_bytes(), 8);
}

// The first n bytes of a slice, to the places from a on.
pub fn put_bytes(out: &mut [u8], a: usize, from: &[u8], n: usize)
    requires { (n ≤ length from.now) × (a + n ≤ length out.old) }
    ensures { out.new ≡ overlay out.old a (take n from.now) }
{
    // No copy_from_slice: the archive for C would need memmove from outside.
    for i in 0..n {
        out[a + i] = from[i];
    }
}
