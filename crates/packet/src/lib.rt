// T2-MI packets (002, clause 5.1): their header and payload, read and written, and the cut of packets back to back.
#![tactic(auto)]

ghost use Rattle.std.specs.Prelude.{◌≡◌, drop};
ghost use Rattle.std.specs.Iterator.{YieldsFirstBy, item_count};
ghost use Rattle.fields.specs.Formats.{pack, too_wide};
ghost use Rattle.refusals.specs.Checks.{first};
ghost use Rattle.refusals.specs.Answers.{code, bytes_of};
ghost use Rattle.packet.specs.Layout.{header, reserved_type, count_after, payload_bytes, total_of, pad_set, size_of};
ghost use Rattle.packet.specs.Read.{header_of, reserved_set, read_checks, read_of, packet_told, payload_read};
ghost use Rattle.packet.specs.Write.{fields_of, write_checks, write_of};
ghost use Rattle.packet.specs.Cut.{judge_of, Means, parts_of, shown, coming, batch_fault};

use refusals::Refusal;

// The fields of a header, in its order: packet_type, packet_count, superframe_idx, t2mi_stream_id, payload_len.
#[derive(Clone, Copy, Debug, PartialEq, Eq)]
pub struct Header {
    pub kind: u8,
    pub count: u8,
    pub frame: u8,
    pub stream: u8,
    pub bits: u32,
}

// Why bytes begin with no good packet: they are fewer than theirs needs, or its CRC is wrong.
#[derive(Clone, Copy, Debug, PartialEq, Eq)]
pub enum Flaw {
    Short,
    Bad,
}

impl From<Flaw> for Refusal {
    ghost from_gives = { Means };

    fn from(flaw: Flaw) -> Refusal {
        match flaw {
            Flaw::Short => Refusal::BatchCut,
            Flaw::Bad => Refusal::CrcWrong,
        }
    }
}

// The bytes of a payload of so many bits, with its pad.
fn payload_bytes(bits: u32) -> usize
    ensures { result ≡ payload_bytes bits }
{
    bits.div_ceil(8) as usize
}

// The bytes of a packet of so many payload bits.
pub fn total(bits: u32) -> usize
    ensures { result ≡ total_of bits }
{
    10 + payload_bytes(bits)
}

// The packet_count that follows: from 255 it goes on to 0.
pub fn next_count(count: u8) -> u8
    ensures { result ≡ count_after count }
{
    count.wrapping_add(1)
}

// Whether a type is none of table 1's.
fn reserved_type(kind: u8) -> bool
    ensures { result ≡ reserved_type kind }
{
    !matches!(kind, 0x00..=0x02 | 0x10..=0x12 | 0x20..=0x21 | 0x30..=0x33)
}

// Whether a pad bit is set in the last byte of a payload of so many bits.
fn pad_set(bits: u32, payload: &[u8]) -> bool
    ensures { result ≡ pad_set bits payload.now }
{
    let n = payload_bytes(bits);
    if n == 0 {
        return false;
    }
    let last = fields::byte_at(payload, n - 1);
    let pad = 8 * n - bits as usize;
    last % (1u8 << pad) != 0
}

// What stands in s from a place on; nothing where s ends before it.
fn from_on(s: &[u8], at: usize) -> &[u8]
    ensures { result.now ≡ drop at s.now }
{
    s.get(at..).unwrap_or(&[])
}

// The length that the packet that s begins with gives itself.
#[tactic(auto, unfolding(crate::specs::Layout::size_of))]
pub fn front_length(s: &[u8]) -> usize
    ensures { result ≡ size_of s.now }
{
    let high = fields::byte_at(s, 4);
    let low = fields::byte_at(s, 5);
    total(u32::from(u16::from_be_bytes([high, low])))
}

// The length that the packet of s at a place gives itself.
pub fn own_length(s: &[u8], at: usize) -> usize
    ensures { result ≡ size_of (drop at s.now) }
{
    front_length(from_on(s, at))
}

// The length of the good packet that s begins with.
#[tactic(auto, unfolding(crate::specs::Cut::judge_of))]
pub fn judge_front(s: &[u8]) -> Result<usize, Flaw>
    ensures { result ≡ judge_of s.now }
{
    let size = front_length(s);
    if s.len() < size {
        return Err(Flaw::Short);
    }
    if crc::holds(&s[..size]) {
        return Ok(size);
    }
    Err(Flaw::Bad)
}

// The length of the good packet of s at a place.
pub fn judge(s: &[u8], at: usize) -> Result<usize, Flaw>
    ensures { result ≡ judge_of (drop at s.now) }
{
    judge_front(from_on(s, at))
}

// The packets that bytes begin with, back to back, each as a part of them; a flaw is the last that comes.
#[derive(Drop)]
pub struct Packets<'a> {
    rest: &'a [u8],
}

impl<'a> Packets<'a> {
    // The packets of s.
    pub fn of(s: &'a [u8]) -> Packets<'a>
        ensures { coming result ≡ parts_of s.now }
    {
        Packets { rest: s }
    }
}

impl<'a> Iterator for Packets<'a> {
    type Item = Result<&'a [u8], Flaw>;

    ghost next_gives = { YieldsFirstBy shown coming };

    ghost remaining = { item_count coming };

    fn next(&mut self) -> Option<Result<&'a [u8], Flaw>> {
        if self.rest.is_empty() {
            return None;
        }
        match judge_front(self.rest) {
            Ok(size) => {
                let (packet, rest) = self.rest.split_at(size);
                self.rest = rest;
                Some(Ok(packet))
            }
            Err(flaw) => {
                self.rest = &self.rest[..0]; // nothing comes behind a flaw
                Some(Err(flaw))
            }
        }
    }
}

// Refuses packets back to back for the first flaw of them.
#[tactic(auto, using(crate::proofs::BatchLaws::fault_parts))]
pub fn check_batch(batch: &[u8]) -> Result<(), Refusal>
    ensures { code result ≡ batch_fault batch.now }
{
    for packet in Packets::of(batch) {
        packet?;
    }
    Ok(())
}

// The header's fields of s, zeros where s has no header. Each lies as many bits from the end as the fields behind it
// take.
fn header_of(s: &[u8]) -> Header
    ensures { result ≡ header_of s.now }
{
    let h = fields::number_at(s, 0, 6);
    Header {
        kind: (h / 0x100_0000_0000 % 256) as u8,
        count: (h / 0x1_0000_0000 % 256) as u8,
        frame: (h / 0x1000_0000 % 16) as u8,
        stream: (h / 0x1_0000 % 8) as u8,
        bits: (h % 0x1_0000) as u32,
    }
}

// Whether one of the nine reserved bits is set.
fn reserved_set(s: &[u8]) -> bool
    ensures { result ≡ reserved_set s.now }
{
    let h = fields::number_at(s, 0, 6);
    h / 0x8_0000 % 512 != 0
}

// Reads a T2-MI packet that fills s.
pub fn read(s: &[u8]) -> Result<Header, Refusal>
    ensures { packet_told result ≡ read_of s.now }
{
    if s.len() < 10 {
        return Err(Refusal::SliceUnder10);
    }
    let size = front_length(s);
    if s.len() != size {
        return Err(Refusal::LengthUnlikePayloadLen);
    }
    if !crc::holds(s) {
        return Err(Refusal::CrcWrong);
    }
    if reserved_set(s) {
        return Err(Refusal::ReservedBitSet);
    }
    let h = header_of(s);
    if reserved_type(h.kind) {
        return Err(Refusal::ReservedType);
    }
    let end = s.len() - 4;
    if pad_set(h.bits, &s[6..end]) {
        return Err(Refusal::PadBitsSet);
    }
    Ok(h)
}

// The payload of the packet that fills s, with its pad, as a part of s; an empty part where the packet is refused.
pub fn payload(s: &[u8]) -> &[u8]
    ensures { result.now ≡ payload_read s.now }
{
    // No generic function: the ranges differ, and a closure for one of them is longer than this match.
    match read(s) {
        Ok(_) => &s[6..s.len() - 4],
        Err(_) => &s[..0],
    }
}

// The header's fields as one number, the reserved bits zero.
fn header_number(h: Header) -> u64
    ensures { result ≡ pack header (fields_of h) }
{
    u64::from(h.kind) * 0x100_0000_0000
        + (u64::from(h.count) * 0x1_0000_0000
            + (u64::from(h.frame) * 0x1000_0000
                + (u64::from(h.stream) * 0x1_0000 + u64::from(h.bits))))
}

// Whether a field is too wide for its bits. packet_type and packet_count are bytes, as their fields are.
fn field_too_wide(h: Header) -> bool
    ensures { result ≡ too_wide header (fields_of h) }
{
    15 < h.frame || 7 < h.stream || 65535 < h.bits
}

// Refuses a header and a payload that make no packet, and too little room.
fn check_write(h: Header, payload: &[u8], room: usize) -> Result<(), Refusal>
    ensures { code result ≡ first (write_checks h payload.now room) }
{
    if reserved_type(h.kind) {
        return Err(Refusal::ReservedType);
    }
    if field_too_wide(h) {
        return Err(Refusal::TooWideOrUnfitState);
    }
    let n = payload_bytes(h.bits);
    if payload.len() != n {
        return Err(Refusal::LengthUnlikePayloadLen);
    }
    if pad_set(h.bits, payload) {
        return Err(Refusal::PadBitsSet);
    }
    let size = total(h.bits);
    if room < size {
        return Err(Refusal::OutputShort);
    }
    Ok(())
}

// Writes a T2-MI packet to the front of out: header, payload with its pad, CRC; gives how many bytes it has.
pub fn write(h: Header, payload: &[u8], out: &mut [u8]) -> Result<u32, Refusal>
    ensures { record { answer = bytes_of result; out = out.new } ≡ write_of h payload.now out.old }
{
    check_write(h, payload, out.len())?;
    let n = payload.len();
    let front = 6 + n;
    fields::store_at(out, 0, 6, header_number(h));
    fields::copy(out, 6, n, payload, 0);
    crc::seal(out, front);
    Ok((front + 4) as u32)
}
