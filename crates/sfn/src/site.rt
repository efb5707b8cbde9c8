// Addressing, the MIP and site timing, as C sees them.
// Numbers for refusals, kinds and flags: C has no Option, Result or enum with values (include/sfn.h).
ghost use Rattle.std.specs.Prelude.{◌≡◌, ◌^◌, ◌<◌};
ghost use Rattle.addressing.specs.Data.{house};
ghost use Rattle.addressing.specs.Payload.{payload_of, write_of as addressing_written};
ghost use Rattle.addressing.specs.Walk.{walk_of, step_found, answered};
ghost use Rattle.mip.specs.Read.{read_of as mip_read};
ghost use Rattle.mip.specs.Timing.{steps, emission_of, extra_of};
ghost use Rattle.sfn.specs.Site.{addressing_of, walked_of, StepFits, mip_flat, mip_written, time_of, ShowsTime};

use super::count_32;
use addressing::{Given, Walked};
use mip::{Mip, Steps};
use refusals::{Refusal, Written};

// What reading an addressing payload gives. Its data begins at byte 2.
#[repr(C)]
#[derive(Clone, Copy, Default)]
pub struct SfnAddressing {
    pub refusal: u32,
    pub bytes: u32,
}

// A step of a walk. given is 1 with a function, and 0 at the data's end.
#[repr(C)]
#[derive(Clone, Copy, Default)]
pub struct SfnWalked {
    pub refusal: u32,
    pub start: u32,
    pub body: u32,
    pub next: u32,
    pub given: u8,
    pub tag: u8,
}

// What reading a MIP gives. Its addressing data begins at byte 21.
#[repr(C)]
#[derive(Clone, Copy, Default)]
pub struct SfnMip {
    pub refusal: u32,
    pub stamp: u32,
    pub delay: u32,
    pub tps: u32,
    pub addressing: u32,
    pub pointer: u16,
    pub future: u16,
    pub count: u8,
    pub periodic: u8,
}

// A time in steps of 100 ns.
#[repr(C)]
#[derive(Clone, Copy, Default)]
pub struct SfnTime {
    pub refusal: u32,
    pub steps: u32,
}

impl From<Result<Steps, Refusal>> for SfnTime {
    ghost from_gives = { ShowsTime };

    fn from(answer: Result<Steps, Refusal>) -> SfnTime {
        match answer {
            Ok(steps) => SfnTime {
                refusal: 0,
                steps: steps.0,
            },
            Err(refusal) => SfnTime {
                refusal: refusal.number(),
                ..SfnTime::default()
            },
        }
    }
}

pub fn sfn_addressing_read(payload: &[u8]) -> SfnAddressing
    ensures { result ≡ addressing_of (payload_of house payload.now) }
{
    // No From: the counts must fit C's 32 bits, which only the definition's own answers do.
    match addressing::payload_read(payload) {
        Ok(bytes) => SfnAddressing {
            refusal: 0,
            bytes: count_32(bytes),
        },
        Err(refusal) => SfnAddressing {
            refusal: refusal.number(),
            ..SfnAddressing::default()
        },
    }
}

pub fn sfn_addressing_write(addressed: &[u8], out: &mut [u8]) -> Written
    ensures { record { answer = result; out = out.new } ≡ addressing_written house addressed.now out.old }
{
    addressing::payload_write(addressed, out).into()
}

// A walk's answer laid out flat.
fn walked_flat(w: Walked) -> SfnWalked
    requires { (w.next < 2 ^ 32) × StepFits (step_found w.step) }
    ensures { result ≡ walked_of (answered w) }
{
    let next = count_32(w.next);
    match w.step {
        Some(Given { tag, start, body }) => SfnWalked {
            refusal: 0,
            start: count_32(start),
            body: count_32(body),
            next,
            given: 1,
            tag,
        },
        None => SfnWalked {
            next,
            ..SfnWalked::default()
        },
    }
}

pub fn sfn_walk(addressed: &[u8], transmitter: u16, place: u32) -> SfnWalked
    ensures { result ≡ walked_of (walk_of house addressed.now transmitter place) }
{
    // No From: the counts must fit C's 32 bits, which only the definition's own answers do.
    match addressing::walk_from(addressed, transmitter, place as usize) {
        Ok(walked) => walked_flat(walked),
        Err(refusal) => SfnWalked {
            refusal: refusal.number(),
            ..SfnWalked::default()
        },
    }
}

pub fn sfn_mip_read(packet: &[u8]) -> SfnMip
    ensures { result ≡ mip_flat (mip_read packet.now) }
{
    // No From: the counts must fit C's 32 bits, which only the definition's own answers do.
    match mip::read(packet) {
        Ok(p) => SfnMip {
            refusal: 0,
            stamp: p.mip.stamp.0,
            delay: p.mip.delay.0,
            tps: p.mip.tps,
            addressing: count_32(p.addressing),
            pointer: p.mip.pointer,
            future: p.mip.future,
            count: p.mip.count,
            periodic: u8::from(p.mip.periodic),
        },
        Err(refusal) => SfnMip {
            refusal: refusal.number(),
            ..SfnMip::default()
        },
    }
}

pub fn sfn_mip_write(
    count: u8,
    pointer: u16,
    periodic: u8,
    future: u16,
    stamp: u32,
    delay: u32,
    tps: u32,
    addressed: &[u8],
    out: &mut [u8],
) -> Written
    ensures { record { answer = result; out = out.new } ≡ mip_written count pointer periodic future stamp delay tps addressed.now out.old }
{
    // Not by flag: an edit of its own changes this test.
    if 1 < periodic {
        if 163 < addressed.len() {
            return Err(Refusal::MipAddressingOver163).into();
        }
        return Err(Refusal::TooWideOrUnfitState).into();
    }
    let m = Mip {
        count,
        pointer,
        periodic: periodic == 1,
        future,
        stamp: Steps(stamp),
        delay: Steps(delay),
        tps,
    };
    mip::write(m, addressed, out).into()
}

pub fn sfn_emission(stamp: u32, delay: u32, offset: i32) -> SfnTime
    ensures { result ≡ time_of (emission_of (steps stamp) (steps delay) offset) }
{
    mip::emission(Steps(stamp), Steps(delay), offset).into()
}

pub fn sfn_extra_delay(stamp: u32, delay: u32, offset: i32, reception: u32) -> SfnTime
    ensures { result ≡ time_of (extra_of (steps stamp) (steps delay) offset (steps reception)) }
{
    mip::extra_delay(Steps(stamp), Steps(delay), offset, Steps(reception)).into()
}
