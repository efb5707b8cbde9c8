// The library as C sees it: thin functions over the crates below. A slice is a pointer and a length, and an answer a
// struct by value.
// Numbers for refusals, kinds and flags: C has no Option, Result or enum with values (include/sfn.h).
#![tactic(auto)]

mod reader;
mod site;

ghost use Rattle.std.specs.Prelude.{◌≡◌, ◌^◌, ◌<◌, cond, eqb, ltb, pos, length, None, Some};
ghost use Rattle.crc.specs.Crc.{crc_of};
ghost use Rattle.packet.specs.Read.{read_of, packet_told};
ghost use Rattle.packet.specs.Write.{write_of};
ghost use Rattle.carry.specs.Carry.{carry_of};
ghost use Rattle.functions.specs.Read.{function_read};
ghost use Rattle.stamp.specs.Read.{read_of as stamp_read};
ghost use Rattle.stamp.specs.Write.{write_of as stamp_written};
ghost use Rattle.sfn.specs.Answers.{packet_of, length_held, stamp_of, ShowsStamp, stamp_from, bit_of, of_kind, function_of, ShowsFunction};
ghost use Rattle.sfn.specs.Making.{made_of, function_written};

use carry::Carried;
use functions::{BANDWIDTH, CELL, ENABLE, FREQUENCY_OFFSET, Function, POWER, PRIVATE, TIME_OFFSET};
use packet::Header;
pub use reader::{SfnGathered, SfnReader, SfnStarted, sfn_gather, sfn_start};
use refusals::{Refusal, Written};
pub use site::{
    SfnAddressing, SfnMip, SfnTime, SfnWalked, sfn_addressing_read, sfn_addressing_write,
    sfn_emission, sfn_extra_delay, sfn_mip_read, sfn_mip_write, sfn_walk,
};
use stamp::{Stamp, Subseconds};

// What reading a T2-MI packet gives, with the header's fields beside the refusal.
#[repr(C)]
#[derive(Clone, Copy, Default)]
pub struct SfnPacket {
    pub refusal: u32,
    pub bits: u32,
    pub kind: u8,
    pub count: u8,
    pub frame: u8,
    pub stream: u8,
}

impl From<Result<Header, Refusal>> for SfnPacket {
    ghost from_gives = { λ r p. p ≡ packet_of (packet_told r) };

    fn from(answer: Result<Header, Refusal>) -> SfnPacket {
        match answer {
            Ok(h) => SfnPacket {
                refusal: 0,
                bits: h.bits,
                kind: h.kind,
                count: h.count,
                frame: h.frame,
                stream: h.stream,
            },
            Err(refusal) => SfnPacket {
                refusal: refusal.number(),
                ..SfnPacket::default()
            },
        }
    }
}

// The register after the bytes.
pub fn sfn_crc(bytes: &[u8]) -> u32
    ensures { result ≡ crc_of bytes.now }
{
    crc::crc(bytes)
}

// The length of the packet that the bytes begin with, or 0 where they do not hold it all.
pub fn sfn_packet_length(bytes: &[u8]) -> u32
    ensures { result ≡ length_held bytes.now }
{
    let size = packet::front_length(bytes);
    if bytes.len() < size {
        return 0;
    }
    count_32(size)
}

pub fn sfn_packet_read(slice: &[u8]) -> SfnPacket
    ensures { result ≡ packet_of (read_of slice.now) }
{
    packet::read(slice).into()
}

pub fn sfn_packet_write(
    kind: u8,
    count: u8,
    frame: u8,
    stream: u8,
    bits: u32,
    payload: &[u8],
    out: &mut [u8],
) -> Written
    ensures { record { answer = result; out = out.new } ≡ write_of (record { kind = kind; count = count; frame = frame; stream = stream; bits = bits }) payload.now out.old }
{
    let h = Header {
        kind,
        count,
        frame,
        stream,
        bits,
    };
    packet::write(h, payload, out).into()
}

// What reading a timestamp payload gives.
#[repr(C)]
#[derive(Clone, Copy, Default)]
pub struct SfnStamp {
    pub seconds: u64,
    pub refusal: u32,
    pub subseconds: u32,
    pub utco: u16,
    pub bw: u8,
    pub kind: u8,
}

impl From<Result<Stamp, Refusal>> for SfnStamp {
    ghost from_gives = { ShowsStamp };

    #[tactic(auto, unfolding(crate::specs::Answers::kind_read))]
    fn from(answer: Result<Stamp, Refusal>) -> SfnStamp {
        match answer {
            Ok(s) => SfnStamp {
                seconds: s.seconds,
                refusal: 0,
                subseconds: s.subseconds.0,
                utco: s.utco,
                bw: s.bw,
                kind: u8::from(stamp::kind_of(s)),
            },
            Err(e) => SfnStamp {
                refusal: e.number(),
                ..SfnStamp::default()
            },
        }
    }
}

pub fn sfn_stamp_read(payload: &[u8]) -> SfnStamp
    ensures { result ≡ stamp_of (stamp_read payload.now) }
{
    stamp::read(payload).into()
}

pub fn sfn_stamp_write(bw: u8, seconds: u64, subseconds: u32, utco: u16, out: &mut [u8]) -> Written
    ensures { record { answer = result; out = out.new } ≡ stamp_written (stamp_from bw seconds subseconds utco) out.old }
{
    let s = Stamp {
        bw,
        seconds,
        subseconds: Subseconds(subseconds),
        utco,
    };
    stamp::write(s, out).into()
}

pub fn sfn_carry(pid: u16, first_count: u8, batch: &[u8], out: &mut [u8]) -> Carried
    ensures { record { answer = result; out = out.new } ≡ carry_of pid first_count batch.now out.old }
{
    carry::carry(pid, first_count, batch, out).into()
}

// C's kind of a function that is passed through; the others are their tags.
const PASSED: u8 = 7;

// What reading a function's body gives. kind is 0 to 6 as the tag, and 7 for a function that is passed through.
#[repr(C)]
#[derive(Clone, Copy, Default)]
pub struct SfnFunction {
    pub refusal: u32,
    pub value: i32,
    pub kind: u8,
    pub tag: u8,
    pub wait: u8,
    pub reserved: u8,
}

// A count in C's 32 bits.
// No try_from: the caller shows the bound (docs/DECISIONS.md), and nothing is tested at run time.
fn count_32(n: usize) -> u32
    requires { n < 2 ^ 32 }
    ensures { result ≡ n }
{
    n as u32
}

// A function of a kind, with no fields: its tag is its kind.
fn of_kind(kind: u8) -> SfnFunction
    ensures { result ≡ of_kind 0 kind (pos 0) 0 0 }
{
    SfnFunction {
        kind,
        tag: kind,
        ..SfnFunction::default()
    }
}

// A function laid out flat; fields that its kind does not have are 0.
impl From<Function> for SfnFunction {
    ghost from_gives = { λ f s. s ≡ function_of 0 f };

    fn from(f: Function) -> SfnFunction {
        match f {
            Function::TimeOffset(t) => SfnFunction {
                value: i32::from(t),
                ..of_kind(TIME_OFFSET)
            },
            Function::FrequencyOffset(t) => SfnFunction {
                value: t,
                ..of_kind(FREQUENCY_OFFSET)
            },
            Function::Power(p) => SfnFunction {
                value: i32::from(p),
                ..of_kind(POWER)
            },
            Function::Private => of_kind(PRIVATE),
            Function::Cell { id, wait, reserved } => SfnFunction {
                value: i32::from(id),
                wait: u8::from(wait),
                reserved,
                ..of_kind(CELL)
            },
            Function::Enable => of_kind(ENABLE),
            Function::Bandwidth { value, wait } => SfnFunction {
                value: i32::from(value),
                wait: u8::from(wait),
                ..of_kind(BANDWIDTH)
            },
            Function::Passed(tag) => SfnFunction {
                tag,
                ..of_kind(PASSED)
            },
        }
    }
}

impl From<Result<Function, Refusal>> for SfnFunction {
    ghost from_gives = { ShowsFunction };

    fn from(answer: Result<Function, Refusal>) -> SfnFunction {
        match answer {
            Ok(f) => f.into(),
            Err(e) => SfnFunction {
                refusal: e.number(),
                ..SfnFunction::default()
            },
        }
    }
}

pub fn sfn_function_read(tag: u8, body: &[u8]) -> SfnFunction
    ensures { result ≡ function_of (function_read tag body.now).refusal (function_read tag body.now).function }
{
    functions::function_read(tag, body).into()
}

// A flag from its number.
fn flag(n: u8) -> Option<bool>
    ensures { result ≡ cond (ltb 1 n) None (Some (eqb n 1)) }
{
    match n {
        0 => Some(false),
        1 => Some(true),
        _ => None,
    }
}

// The function that C's arguments make, where n bytes come with them: a tag like its kind, no bytes but for the kinds
// that carry a body, and values that fit. None, for which 38 is answered, where they make none.
// C's arguments, one by one.
#[tactic(auto, unfolding(crate::specs::Making::made_of))]
fn function_from(
    kind: u8,
    tag: u8,
    value: i32,
    wait: u8,
    reserved: u8,
    n: usize,
) -> Option<Function>
    ensures { result ≡ made_of kind tag value wait reserved n }
{
    if kind == PASSED {
        return Some(Function::Passed(tag));
    }
    if tag != kind {
        return None;
    }
    // Kinds by number: C's arguments.
    match kind {
        PRIVATE => Some(Function::Private),
        ENABLE => Some(Function::Enable),
        _ if 0 < n => None,
        TIME_OFFSET => Some(Function::TimeOffset(i16::try_from(value).ok()?)),
        FREQUENCY_OFFSET => Some(Function::FrequencyOffset(value)),
        POWER => Some(Function::Power(u16::try_from(value).ok()?)),
        CELL => Some(Function::Cell {
            id: u16::try_from(value).ok()?,
            wait: flag(wait)?,
            reserved,
        }),
        BANDWIDTH => Some(Function::Bandwidth {
            value: u8::try_from(value).ok()?,
            wait: flag(wait)?,
        }),
        _ => None,
    }
}

pub fn sfn_function_write(
    kind: u8,
    tag: u8,
    value: i32,
    wait: u8,
    reserved: u8,
    bytes: &[u8],
    out: &mut [u8],
) -> Written
    ensures { record { answer = result; out = out.new } ≡ function_written (made_of kind tag value wait reserved (length bytes.now)) bytes.now out.old }
{
    match function_from(kind, tag, value, wait, reserved, bytes.len()) {
        Some(f) => functions::function_write(f, bytes, out).into(),
        None => Err(Refusal::TooWideOrUnfitState).into(),
    }
}
