// Reading a MIP: its header and parameters, its addressing data, its CRC and its stuffing.
ghost use Rattle.std.specs.Prelude.{◌≡◌, IfOk};
ghost use Rattle.refusals.specs.Checks.{first};
ghost use Rattle.refusals.specs.Answers.{code};
ghost use Rattle.mip.specs.Read.{section_wrong, not_all_ones, read_checks, lead_of, read_of, mip_told, addressing_read};

use super::timing::check_times;
use super::{Mip, MipRead, Steps};
use refusals::Refusal;

// What a packet says before its addressing data. `fixed` are the header's bits between the sync byte and the count.
#[derive(Clone, Copy)]
struct Lead {
    sync: u8,
    fixed: u32,
    id: u8,
    section: u8,
    addressing: u8,
    mip: Mip,
}

// The fixed bits of every MIP: no error mark, start and priority 1, PID 0x15, scrambling 00, adaptation control 01.
const FIXED: u32 = 0x6_0151;

// The header's and the parameters' fields. The header is read as one number, and the parameters as three; a field lies
// as many bits from the end of its number as the fields behind it take.
fn lead_of(packet: &[u8; 188]) -> Lead
    ensures { result ≡ lead_of packet.now }
{
    let header = fields::number_at(packet, 0, 4);
    let head = fields::number_at(packet, 4, 6);
    let times = fields::number_at(packet, 10, 6);
    let tail = fields::number_at(packet, 16, 5);
    let count = (header % 16) as u8;
    let pointer = (head / 0x1_0000 % 0x1_0000) as u16;
    let future = (head % 0x8000) as u16;
    let stamp = (times / 0x100_0000 % 0x100_0000) as u32;
    let delay = (times % 0x100_0000) as u32;
    let tps = (tail / 0x100 % 0x1_0000_0000) as u32;
    let mip = Mip {
        count,
        pointer,
        periodic: head / 0x8000 % 2 == 1,
        future,
        stamp: Steps(stamp),
        delay: Steps(delay),
        tps,
    };
    let sync = (header / 0x100_0000 % 0x100) as u8;
    let fixed = (header / 0x10 % 0x10_0000) as u32;
    let id = (head / 0x100_0000_0000 % 0x100) as u8;
    let section = (head / 0x1_0000_0000 % 0x100) as u8;
    let addressing = (tail % 0x100) as u8;
    Lead {
        sync,
        fixed,
        id,
        section,
        addressing,
        mip,
    }
}

// Whether section_length is too long, or does not fit the addressing length.
fn section_wrong(section: u8, addressing: u8) -> bool
    ensures { result ≡ section_wrong section addressing }
{
    182 < section || usize::from(section) != 19 + usize::from(addressing)
}

// Whether a byte of the stuffing is not 0xFF.
fn stuffing_wrong(stuffing: &[u8]) -> bool
    ensures { result ≡ not_all_ones stuffing.now }
{
    stuffing.iter().any(|byte| *byte != 0xff)
}

// What a packet says before its addressing data; refuses what is no MIP.
fn checked(packet: &[u8]) -> Result<Lead, Refusal>
    ensures refusal { code result ≡ first (read_checks packet.now) }
    ensures lead { IfOk result (λ lead. lead ≡ lead_of packet.now) }
{
    let Some(whole) = packet.as_array::<188>() else {
        return Err(Refusal::TransportNot188);
    };
    let lead = lead_of(whole);
    if lead.sync != 0x47 {
        return Err(Refusal::SyncByteWrong);
    }
    if lead.fixed != FIXED {
        return Err(Refusal::MipHeaderWrong);
    }
    if lead.id != 0 {
        return Err(Refusal::SynchronizationIdWrong);
    }
    if section_wrong(lead.section, lead.addressing) {
        return Err(Refusal::SectionLengthWrong);
    }
    let end = 21 + usize::from(lead.addressing);
    let after = end + 4;
    if !crc::holds(&packet[..after]) {
        return Err(Refusal::CrcWrong);
    }
    check_times(lead.mip.stamp, lead.mip.delay)?;
    if stuffing_wrong(&packet[after..]) {
        return Err(Refusal::StuffingNotFf);
    }
    addressing::check(&packet[21..end])?;
    Ok(lead)
}

// Reads a MIP.
#[tactic(auto, unfolding(crate::specs::Read::read_of, refusals::specs::Answers::answer))]
pub fn read(packet: &[u8]) -> Result<MipRead, Refusal>
    ensures { mip_told result ≡ read_of packet.now }
{
    let lead = checked(packet)?;
    Ok(MipRead {
        addressing: usize::from(lead.addressing),
        mip: lead.mip,
    })
}

// The addressing data of a MIP, as a part of the packet; an empty part where the packet is refused.
#[tactic(auto, using(crate::proofs::FieldLaws::read_within, crate::proofs::FieldLaws::addressing_part), unfolding(crate::specs::Read::addressing_read, refusals::specs::Answers::answer))]
pub fn addressing_data(packet: &[u8]) -> &[u8]
    ensures { result.now ≡ addressing_read packet.now }
{
    // No generic function: the ranges differ, and a closure for one of them is longer than this match.
    match checked(packet) {
        Ok(lead) => {
            let end = 21 + usize::from(lead.addressing);
            &packet[21..end]
        }
        Err(_) => &packet[..0],
    }
}
