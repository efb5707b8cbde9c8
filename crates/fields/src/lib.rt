// Numbers in bytes and parts of slices: the few functions that more than one crate needs. Each answers for any arguments.
// A place and a length beside the slice: docs/STATEMENTS.md has each of these for any numbers.
#![tactic(auto)]

ghost use Rattle.std.specs.Prelude.{◌≡◌, ◌+◌, leb, get_or};
ghost use Rattle.fields.specs.Signed.{outside};
ghost use Rattle.fields.specs.Parts.{number_at, stored_at, copied_to, filled_at};

// Whether n elements from index at on lie within len. The sum of at and n is never made: it may not fit.
pub fn within(at: usize, n: usize, len: usize) -> bool
    ensures { result ≡ leb (at + n) len }
{
    at <= len && n <= len - at
}

// Whether z is less than -half, or not less than half.
pub fn outside(half: u32, z: i32) -> bool
    ensures { result ≡ outside half z }
{
    let half = i64::from(half);
    !(-half..half).contains(&i64::from(z))
}

// The byte of s at at; 0 past its end.
pub fn byte_at(s: &[u8], at: usize) -> u8
    ensures { result ≡ get_or s.now at 0 }
{
    s.get(at).copied().unwrap_or(0)
}

// The number in the n bytes of s at at, most significant first; 0 where they are not there, or more than eight.
#[tactic(auto, unfolding(crate::specs::Parts::number_at))]
pub fn number_at(s: &[u8], at: usize, n: usize) -> u64
    ensures { result ≡ number_at at n s.now }
{
    if !within(at, n, s.len()) || 8 < n {
        return 0;
    }
    s[at..at + n].iter().fold(0, |v, b| v << 8 | u64::from(*b))
}

// Lays the n lowest bytes of v over dst at at, most significant first; nothing where there is no room, or n is over eight.
#[tactic(auto, unfolding(crate::specs::Parts::stored_at))]
pub fn store_at(dst: &mut [u8], at: usize, n: usize, v: u64)
    ensures { dst.new ≡ stored_at at n v dst.old }
{
    if !within(at, n, dst.len()) || 8 < n {
        return;
    }
    dst[at..at + n].copy_from_slice(&v.to_be_bytes()[8 - n..]);
}

// Lays the n bytes of src at from over dst at at; nothing where they are not there, or there is no room.
#[tactic(auto, unfolding(crate::specs::Parts::copied_to))]
pub fn copy(dst: &mut [u8], at: usize, n: usize, src: &[u8], from: usize)
    ensures { dst.new ≡ copied_to at n src.now from dst.old }
{
    if !within(from, n, src.len()) || !within(at, n, dst.len()) {
        return;
    }
    // A `for`: copy_from_slice between lent slices is memmove, which include/sfn.h promises not to need.
    for (i, b) in src[from..from + n].iter().enumerate() {
        dst[at + i] = *b;
    }
}

// Lays n times byte over dst at at; nothing where there is no room.
#[tactic(auto, unfolding(crate::specs::Parts::filled_at, crate::specs::Parts::overlay))]
pub fn fill(dst: &mut [u8], at: usize, n: usize, byte: u8)
    ensures { dst.new ≡ filled_at at n byte dst.old }
{
    if within(at, n, dst.len()) {
        dst[at..at + n].fill(byte);
    }
}
