// The CRC of 01 ("CRC:") and of annex A, over bytes that the caller lends. The definition, specs/Crc.antt, feeds the
// register bit by bit; the code looks digits of four bits up in tables, those of eight bytes at a time.
#![tactic(auto)]

ghost use Rattle.std.specs.Prelude.{◌≡◌, ◌+◌, ◌*◌, ◌%◌, ◌^◌, ◌≤◌, ◌<◌};
ghost use Rattle.crc.specs.Crc.{feed, run, crc_of, crc_holds};
ghost use Rattle.crc.specs.Sealed.{sealed_at};
ghost use Rattle.crc.specs.Tables.{zeros};

mod table;

use table::TABLES;

// What table j has for the last digit of x.
fn look(j: usize, x: u32) -> u32
    requires { j < 16 }
    ensures { result ≡ zeros (4 * (j + 1)) (x % 16 * 2 ^ 28) }
{
    TABLES[16 * j + (x % 16) as usize]
}

// What base + 8 zero digits leave of a register: each of its eight digits has others behind it, and is looked up by itself.
fn after_zeros(base: usize, register: u32) -> u32
    requires { base ≤ 8 }
    ensures { result ≡ zeros (4 * (base + 8)) register }
{
    let mut sum = 0;
    for j in 0..8 {
        sum ^= look(base + j, register >> (4 * j));
    }
    sum
}

// What one more byte leaves in the register: the byte is added to its top eight stages, whose two digits are looked up, and
// the others move up.
fn after_byte(register: u32, b: u8) -> u32
    ensures { result ≡ feed 8 register b }
{
    let k = (register >> 24) ^ u32::from(b);
    look(1, k / 16) ^ look(0, k) ^ (register << 8)
}

// What eight bytes leave in the register: four are added to it and have eight digits behind them, and the other four none.
fn after_eight(register: u32, bytes: &[u8; 8]) -> u32
    ensures { result ≡ run register bytes.now }
{
    let [a, b, c, d, e, f, g, h] = *bytes;
    let first = u32::from_be_bytes([a, b, c, d]);
    let second = u32::from_be_bytes([e, f, g, h]);
    after_zeros(8, register ^ first) ^ after_zeros(0, second)
}

// The CRC of bytes, eight at a time and the last few one by one. With it behind them, top byte first, `holds` is true
// of the whole.
pub fn crc(bytes: &[u8]) -> u32
    ensures { result ≡ crc_of bytes.now }
{
    let (eights, last) = bytes.as_chunks::<8>();
    let register = eights
        .iter()
        .fold(0xffff_ffff, |r, eight| after_eight(r, eight));
    last.iter().fold(register, |r, b| after_byte(r, *b))
}

// Whether the CRC at the end of bytes is right.
#[tactic(auto, unfolding(crate::specs::Crc::crc_holds))]
pub fn holds(bytes: &[u8]) -> bool
    ensures { result ≡ crc_holds bytes.now }
{
    crc(bytes) == 0
}

// Lays the CRC of the first n bytes of out behind them, top byte first; nothing where it has no room.
// A length beside the slice: docs/STATEMENTS.md has this for any n.
#[tactic(auto, unfolding(crate::specs::Sealed::sealed_at))]
pub fn seal(out: &mut [u8], n: usize)
    ensures { out.new ≡ sealed_at n out.old }
{
    if fields::within(n, 4, out.len()) {
        let sum = crc(&out[..n]);
        out[n..n + 4].copy_from_slice(&sum.to_be_bytes());
    }
}
