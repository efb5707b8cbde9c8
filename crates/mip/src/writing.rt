// Writing a MIP: its header and parameters, the addressing data, the CRC and the stuffing.
ghost use Rattle.std.specs.Prelude.{◌≡◌, false, ◌≤◌, length};
ghost use Rattle.fields.specs.Parts.{overlay};
ghost use Rattle.refusals.specs.Checks.{first};
ghost use Rattle.refusals.specs.Answers.{code, bytes_of};
ghost use Rattle.mip.specs.Write.{lead_bytes, field_wide, write_checks, write_of};

use super::Mip;
use super::timing::check_times;
use refusals::Refusal;

// Whether a field is too wide for its bits. pointer and tps_mip are as wide as the types that hold them.
fn field_too_wide(m: Mip) -> bool
    ensures { result ≡ field_wide m 0 }
{
    15 < m.count || 0x7fff < m.future || 0xff_ffff < m.stamp.0 || 0xff_ffff < m.delay.0
}

// Refuses what no MIP holds, and too little room.
#[tactic(auto, using(crate::proofs::FieldLaws::wide_alike), unfolding(crate::specs::Write::write_checks))]
fn check_write(m: Mip, addressing: &[u8], room: usize) -> Result<(), Refusal>
    ensures { code result ≡ first (write_checks m addressing.now room) }
{
    if 163 < addressing.len() {
        return Err(Refusal::MipAddressingOver163);
    }
    if field_too_wide(m) {
        return Err(Refusal::TooWideOrUnfitState);
    }
    check_times(m.stamp, m.delay)?;
    addressing::check(addressing)?;
    if room < 188 {
        return Err(Refusal::OutputShort);
    }
    Ok(())
}

// Lays the header and the parameters over the front of out, as four numbers. The first is the header's fixed bits and
// its count.
fn lay_lead(out: &mut [u8], m: Mip, addressing: usize)
    requires { (field_wide m addressing ≡ false) × (addressing ≤ 163) × (21 ≤ length out.old) }
    ensures { out.new ≡ overlay 0 (lead_bytes m addressing) out.old }
{
    let header = 0x4760_1510 + u64::from(m.count);
    let section = 19 + addressing as u64;
    let periodic = u64::from(m.periodic);
    let head = section * 0x1_0000_0000
        + (u64::from(m.pointer) * 0x1_0000 + (periodic * 0x8000 + u64::from(m.future)));
    let times = u64::from(m.stamp.0) * 0x100_0000 + u64::from(m.delay.0);
    let tail = u64::from(m.tps) * 0x100 + addressing as u64;
    fields::store_at(out, 0, 4, header);
    fields::store_at(out, 4, 6, head);
    fields::store_at(out, 10, 6, times);
    fields::store_at(out, 16, 5, tail);
}

// Writes a MIP with its addressing data over the first 188 bytes of out; gives how many bytes that is.
#[tactic(auto, unfolding(crate::specs::Write::write_of, refusals::specs::Answers::written, refusals::specs::Answers::answer))]
pub fn write(m: Mip, addressing: &[u8], out: &mut [u8]) -> Result<u32, Refusal>
    ensures { record { answer = bytes_of result; out = out.new } ≡ write_of m addressing.now out.old }
{
    check_write(m, addressing, out.len())?;
    let n = addressing.len();
    let end = 21 + n;
    lay_lead(out, m, n);
    fields::copy(out, 21, n, addressing, 0);
    crc::seal(out, end);
    let after = end + 4;
    fields::fill(out, after, 188 - after, 0xff);
    Ok(188)
}
