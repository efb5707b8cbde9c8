// The static library for C: each function of `sfn` exported under its name, with the same clauses. Rattle's own callers use `sfn`.
// Twins of sfn's functions: a crate is a library or an archive, and door stands on the library.
#![tactic(auto)]

ghost use Rattle.std.specs.Prelude.{◌≡◌, length};
ghost use Rattle.crc.specs.Crc.{crc_of};
ghost use Rattle.packet.specs.Read.{read_of};
ghost use Rattle.packet.specs.Write.{write_of};
ghost use Rattle.carry.specs.Carry.{carry_of};
ghost use Rattle.functions.specs.Read.{function_read};
ghost use Rattle.stamp.specs.Read.{read_of as stamp_read};
ghost use Rattle.stamp.specs.Write.{write_of as stamp_written};
ghost use Rattle.sfn.specs.Answers.{packet_of, length_held, stamp_of, stamp_from, function_of};
ghost use Rattle.sfn.specs.Making.{made_of, function_written};
ghost use Rattle.gather.specs.State.{start_of};
ghost use Rattle.sfn.specs.Reader.{started_of, gathered_by};
ghost use Rattle.addressing.specs.Data.{house};
ghost use Rattle.addressing.specs.Payload.{payload_of, write_of as addressing_written};
ghost use Rattle.addressing.specs.Walk.{walk_of};
ghost use Rattle.mip.specs.Read.{read_of as mip_read};
ghost use Rattle.mip.specs.Timing.{steps, emission_of, extra_of};
ghost use Rattle.sfn.specs.Site.{addressing_of, walked_of, mip_flat, mip_written, time_of};

use carry::Carried;
use refusals::Written;
use sfn::{
    SfnAddressing, SfnFunction, SfnGathered, SfnMip, SfnPacket, SfnReader, SfnStamp, SfnStarted,
    SfnTime, SfnWalked,
};

// The register after the bytes.
#[unsafe(no_mangle)]
pub extern "C" fn sfn_crc(bytes: &[u8]) -> u32
    ensures { result ≡ crc_of bytes.now }
{
    sfn::sfn_crc(bytes)
}

// The length of the packet that the bytes begin with, or 0 where they do not hold it all.
#[unsafe(no_mangle)]
pub extern "C" fn sfn_packet_length(bytes: &[u8]) -> u32
    ensures { result ≡ length_held bytes.now }
{
    sfn::sfn_packet_length(bytes)
}

#[unsafe(no_mangle)]
pub extern "C" fn sfn_packet_read(slice: &[u8]) -> SfnPacket
    ensures { result ≡ packet_of (read_of slice.now) }
{
    sfn::sfn_packet_read(slice)
}

#[unsafe(no_mangle)]
pub extern "C" fn sfn_packet_write(
    kind: u8,
    count: u8,
    frame: u8,
    stream: u8,
    bits: u32,
    payload: &[u8],
    out: &mut [u8],
) -> Written
    ensures { record { answer = result; out = out.new } ≡ write_of (record { kind = kind; count = count; frame = frame; stream = stream; bits = bits }) payload.now out.old }
{
    sfn::sfn_packet_write(kind, count, frame, stream, bits, payload, out)
}

#[unsafe(no_mangle)]
pub extern "C" fn sfn_stamp_read(payload: &[u8]) -> SfnStamp
    ensures { result ≡ stamp_of (stamp_read payload.now) }
{
    sfn::sfn_stamp_read(payload)
}

#[unsafe(no_mangle)]
pub extern "C" fn sfn_stamp_write(
    bw: u8,
    seconds: u64,
    subseconds: u32,
    utco: u16,
    out: &mut [u8],
) -> Written
    ensures { record { answer = result; out = out.new } ≡ stamp_written (stamp_from bw seconds subseconds utco) out.old }
{
    sfn::sfn_stamp_write(bw, seconds, subseconds, utco, out)
}

#[unsafe(no_mangle)]
pub extern "C" fn sfn_carry(pid: u16, first_count: u8, batch: &[u8], out: &mut [u8]) -> Carried
    ensures { record { answer = result; out = out.new } ≡ carry_of pid first_count batch.now out.old }
{
    sfn::sfn_carry(pid, first_count, batch, out)
}

#[unsafe(no_mangle)]
pub extern "C" fn sfn_start(pid: u16) -> SfnStarted
    ensures { result ≡ started_of (start_of pid) }
{
    sfn::sfn_start(pid)
}

#[unsafe(no_mangle)]
pub extern "C" fn sfn_gather(
    reader: SfnReader,
    transport: &[u8],
    gathering: &mut [u8],
    out: &mut [u8],
) -> SfnGathered
    ensures { record { answer = result; gathering = gathering.new; out = out.new } ≡ gathered_by reader transport.now gathering.old out.old }
{
    sfn::sfn_gather(reader, transport, gathering, out)
}

#[unsafe(no_mangle)]
pub extern "C" fn sfn_function_read(tag: u8, body: &[u8]) -> SfnFunction
    ensures { result ≡ function_of (function_read tag body.now).refusal (function_read tag body.now).function }
{
    sfn::sfn_function_read(tag, body)
}

#[unsafe(no_mangle)]
pub extern "C" fn sfn_function_write(
    kind: u8,
    tag: u8,
    value: i32,
    wait: u8,
    reserved: u8,
    bytes: &[u8],
    out: &mut [u8],
) -> Written
    ensures { record { answer = result; out = out.new } ≡ function_written (made_of kind tag value wait reserved (length bytes.now)) bytes.now out.old }
{
    sfn::sfn_function_write(kind, tag, value, wait, reserved, bytes, out)
}

#[unsafe(no_mangle)]
pub extern "C" fn sfn_addressing_read(payload: &[u8]) -> SfnAddressing
    ensures { result ≡ addressing_of (payload_of house payload.now) }
{
    sfn::sfn_addressing_read(payload)
}

#[unsafe(no_mangle)]
pub extern "C" fn sfn_addressing_write(addressed: &[u8], out: &mut [u8]) -> Written
    ensures { record { answer = result; out = out.new } ≡ addressing_written house addressed.now out.old }
{
    sfn::sfn_addressing_write(addressed, out)
}

#[unsafe(no_mangle)]
pub extern "C" fn sfn_walk(addressed: &[u8], transmitter: u16, place: u32) -> SfnWalked
    ensures { result ≡ walked_of (walk_of house addressed.now transmitter place) }
{
    sfn::sfn_walk(addressed, transmitter, place)
}

#[unsafe(no_mangle)]
pub extern "C" fn sfn_mip_read(packet: &[u8]) -> SfnMip
    ensures { result ≡ mip_flat (mip_read packet.now) }
{
    sfn::sfn_mip_read(packet)
}

#[unsafe(no_mangle)]
pub extern "C" fn sfn_mip_write(
    count: u8,
    pointer: u16,
    periodic: u8,
    future: u16,
    stamp: u32,
    delay: u32,
    tps: u32,
    addressed: &[u8],
    out: &mut [u8],
) -> Written
    ensures { record { answer = result; out = out.new } ≡ mip_written count pointer periodic future stamp delay tps addressed.now out.old }
{
    sfn::sfn_mip_write(
        count, pointer, periodic, future, stamp, delay, tps, addressed, out,
    )
}

#[unsafe(no_mangle)]
pub extern "C" fn sfn_emission(stamp: u32, delay: u32, offset: i32) -> SfnTime
    ensures { result ≡ time_of (emission_of (steps stamp) (steps delay) offset) }
{
    sfn::sfn_emission(stamp, delay, offset)
}

#[unsafe(no_mangle)]
pub extern "C" fn sfn_extra_delay(stamp: u32, delay: u32, offset: i32, reception: u32) -> SfnTime
    ensures { result ≡ time_of (extra_of (steps stamp) (steps delay) offset (steps reception)) }
{
    sfn::sfn_extra_delay(stamp, delay, offset, reception)
}
