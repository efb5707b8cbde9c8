// The functions of individual addressing (000, clause 6.1): their tags, and their bodies read and written.
#![tactic(auto)]

ghost use Rattle.std.specs.Prelude.{◌≡◌, false, ◌^◌, ◌<◌, length};
ghost use Rattle.fields.specs.Formats.{pack};
ghost use Rattle.fields.specs.Parts.{overlay};
ghost use Rattle.fields.specs.Signed.{signed, unsigned, InSigned};
ghost use Rattle.refusals.specs.Checks.{first};
ghost use Rattle.refusals.specs.Answers.{code, bytes_of};
ghost use Rattle.functions.specs.Tags.{cell, bandwidth, body_long, body_wrong, value_reserved, bandwidth_reserved};
ghost use Rattle.functions.specs.Function.{function_of, cell_fields, bandwidth_fields, body_of};
ghost use Rattle.functions.specs.Read.{read_checks, function_read, function_told};
ghost use Rattle.functions.specs.Write.{unfit, reserved, write_checks, Writable, write_of};

use refusals::Refusal;

// A function by its kind. Private, Enable and Passed carry bytes, which stand beside it; Passed holds its tag.
#[derive(Clone, Copy, Debug, PartialEq, Eq)]
pub enum Function {
    TimeOffset(i16),
    FrequencyOffset(i32),
    Power(u16),
    Private,
    Cell { id: u16, wait: bool, reserved: u8 },
    Enable,
    Bandwidth { value: u8, wait: bool },
    Passed(u8),
}

// The tags of the table; every other tag is passed through.
pub const TIME_OFFSET: u8 = 0;

pub const FREQUENCY_OFFSET: u8 = 1;

pub const POWER: u8 = 2;

pub const PRIVATE: u8 = 3;

pub const CELL: u8 = 4;

pub const ENABLE: u8 = 5;

pub const BANDWIDTH: u8 = 6;

// Whether a body of n bytes is too long for function_length, which counts the tag and length bytes too.
#[tactic(auto, unfolding(crate::specs::Tags::body_long))]
fn body_long(n: usize) -> bool
    ensures { result ≡ body_long n }
{
    253 < n
}

// Whether a known tag comes with a body of the wrong length, of n bytes.
#[tactic(auto, unfolding(crate::specs::Tags::body_wrong))]
pub fn body_wrong(tag: u8, n: usize) -> bool
    ensures { result ≡ body_wrong tag n }
{
    // Tags as numbers: every other byte is a tag too, and is passed through (Passed).
    match tag {
        TIME_OFFSET | POWER => n != 2,
        FREQUENCY_OFFSET | CELL => n != 3,
        BANDWIDTH => n != 1,
        _ => false,
    }
}

// Whether a bandwidth value is reserved: 1 to 127.
#[tactic(auto, unfolding(crate::specs::Tags::value_reserved))]
fn value_reserved(v: u8) -> bool
    ensures { result ≡ value_reserved v }
{
    (1..=127).contains(&v)
}

// Whether a bandwidth function's value is reserved. It stands in the top seven bits of the body's first byte.
#[tactic(auto, unfolding(crate::specs::Tags::bandwidth_reserved, fields::specs::Formats::unpack))]
pub fn bandwidth_reserved(tag: u8, first: u8) -> bool
    ensures { result ≡ bandwidth_reserved tag first }
{
    tag == BANDWIDTH && value_reserved(first / 2)
}

// The number that 24 bits stand for in two's complement.
// No library type has 24 bits.
#[tactic(auto, unfolding(fields::specs::Signed::signed))]
fn signed_24(v: u32) -> i32
    requires { v < 2 ^ 24 }
    ensures { result ≡ signed 24 v }
{
    if v < 0x80_0000 {
        v as i32
    } else {
        v as i32 - 0x100_0000
    }
}

// The 24 bits that stand for a number in two's complement.
// No library type has 24 bits.
#[tactic(auto, unfolding(fields::specs::Signed::unsigned))]
fn unsigned_24(z: i32) -> u64
    requires { InSigned 24 z }
    ensures { result ≡ unsigned 24 z }
{
    u64::from(z.cast_unsigned() % 0x100_0000)
}

// The function of a tag and a body of its length.
#[tactic(auto, unfolding(crate::specs::Function::function_of))]
fn function_of(tag: u8, body: &[u8]) -> Function
    requires { body_wrong tag (length body.now) ≡ false }
    ensures { result ≡ function_of tag body.now }
{
    let v = fields::number_at(body, 0, body.len());
    // Tags as numbers: every other byte is a tag too, and is passed through (Passed).
    match tag {
        TIME_OFFSET => Function::TimeOffset((v as u16).cast_signed()),
        FREQUENCY_OFFSET => Function::FrequencyOffset(signed_24(v as u32)),
        POWER => Function::Power(v as u16),
        PRIVATE => Function::Private,
        CELL => Function::Cell {
            id: (v / 256 % 0x1_0000) as u16,
            wait: v / 128 % 2 != 0,
            reserved: (v % 128) as u8,
        },
        ENABLE => Function::Enable,
        BANDWIDTH => Function::Bandwidth {
            value: (v / 2 % 128) as u8,
            wait: v % 2 != 0,
        },
        _ => Function::Passed(tag),
    }
}

// Refuses a body that its tag does not have.
#[tactic(auto, unfolding(crate::specs::Read::read_checks))]
fn check_read(tag: u8, body: &[u8]) -> Result<(), Refusal>
    ensures { code result ≡ first (read_checks tag body.now) }
{
    if body_long(body.len()) {
        return Err(Refusal::TooWideOrUnfitState);
    }
    if body_wrong(tag, body.len()) {
        return Err(Refusal::FunctionLengthWrong);
    }
    if bandwidth_reserved(tag, fields::byte_at(body, 0)) {
        return Err(Refusal::BandwidthValueReserved);
    }
    Ok(())
}

// Reads the body of a function: tag and body to fields.
pub fn function_read(tag: u8, body: &[u8]) -> Result<Function, Refusal>
    ensures { function_told result ≡ function_read tag body.now }
{
    check_read(tag, body)?;
    Ok(function_of(tag, body))
}

// The bytes of a function's body.
#[tactic(auto, using(crate::proofs::BodyLaws::sizes), unfolding(crate::specs::Function::body_of))]
fn body_size(f: Function, bytes: &[u8]) -> usize
    ensures { result ≡ length (body_of f bytes.now) }
{
    match f {
        Function::TimeOffset(_) | Function::Power(_) => 2,
        Function::FrequencyOffset(_) | Function::Cell { .. } => 3,
        Function::Bandwidth { .. } => 1,
        Function::Private | Function::Enable | Function::Passed(_) => bytes.len(),
    }
}

// Whether a value is too wide for its bits, or a passed-through function has a tag of the table. A time offset and a
// power have the bits of the types that hold them.
#[tactic(auto, unfolding(crate::specs::Write::unfit, fields::specs::Formats::too_wide))]
fn is_unfit(f: Function) -> bool
    ensures { result ≡ unfit f }
{
    match f {
        Function::FrequencyOffset(z) => fields::outside(0x80_0000, z),
        Function::Cell { reserved, .. } => 127 < reserved,
        Function::Bandwidth { value, .. } => 127 < value,
        Function::Passed(tag) => tag <= BANDWIDTH,
        _ => false,
    }
}

// Whether a bandwidth is reserved.
#[tactic(auto, unfolding(crate::specs::Write::reserved))]
fn is_reserved(f: Function) -> bool
    ensures { result ≡ reserved f }
{
    matches!(f, Function::Bandwidth { value, .. } if value_reserved(value))
}

// Refuses a function that no body holds, and too little room.
#[tactic(auto, unfolding(crate::specs::Write::write_checks))]
fn check_write(f: Function, bytes: &[u8], room: usize) -> Result<(), Refusal>
    ensures { code result ≡ first (write_checks f bytes.now room) }
{
    if is_unfit(f) {
        return Err(Refusal::TooWideOrUnfitState);
    }
    let size = body_size(f, bytes);
    if body_long(size) {
        return Err(Refusal::TooWideOrUnfitState);
    }
    if is_reserved(f) {
        return Err(Refusal::BandwidthValueReserved);
    }
    if room < size {
        return Err(Refusal::OutputShort);
    }
    Ok(())
}

// A cell function's fields as one number.
#[tactic(auto, unfolding(fields::specs::Formats::pack))]
fn cell_number(id: u16, wait: bool, reserved: u8) -> u64
    ensures { result ≡ pack cell (cell_fields id wait reserved) }
{
    u64::from(id) * 256 + u64::from(wait) * 128 + u64::from(reserved)
}

// A bandwidth function's fields as one number.
#[tactic(auto, unfolding(fields::specs::Formats::pack))]
fn bandwidth_number(value: u8, wait: bool) -> u64
    ensures { result ≡ pack bandwidth (bandwidth_fields value wait) }
{
    u64::from(value) * 2 + u64::from(wait)
}

// Lays a function's body over the front of out.
#[tactic(auto, using(crate::proofs::BodyLaws::layings), unfolding(crate::specs::Function::body_of))]
fn put_body(f: Function, bytes: &[u8], out: &mut [u8])
    requires { Writable f bytes.now out.old }
    ensures { out.new ≡ overlay 0 (body_of f bytes.now) out.old }
{
    match f {
        Function::TimeOffset(z) => fields::store_at(out, 0, 2, u64::from(z.cast_unsigned())),
        Function::FrequencyOffset(z) => fields::store_at(out, 0, 3, unsigned_24(z)),
        Function::Power(p) => fields::store_at(out, 0, 2, u64::from(p)),
        Function::Cell { id, wait, reserved } => fields::store_at(
            out,
            0,
            3,
            cell_number(id, wait, reserved),
        ),
        Function::Bandwidth { value, wait } => fields::store_at(
            out,
            0,
            1,
            bandwidth_number(value, wait),
        ),
        Function::Private | Function::Enable | Function::Passed(_) => fields::copy(
            out,
            0,
            bytes.len(),
            bytes,
            0,
        ),
    }
}

// Writes the body of a function to the front of out, fields to body; gives how many bytes it has. bytes is the body of
// Private, Enable and Passed.
pub fn function_write(f: Function, bytes: &[u8], out: &mut [u8]) -> Result<u32, Refusal>
    ensures { record { answer = bytes_of result; out = out.new } ≡ write_of f bytes.now out.old }
{
    check_write(f, bytes, out.len())?;
    put_body(f, bytes, out);
    Ok(body_size(f, bytes) as u32)
}
