// DVB-T2 timestamp payloads (002, clause 5.2.7): read and written, the units of their subseconds, and the kinds of stamp.
#![tactic(auto)]

ghost use Rattle.std.specs.Prelude.{◌≡◌, ◌≤◌, length};
ghost use Rattle.fields.specs.Formats.{too_wide};
ghost use Rattle.refusals.specs.Checks.{first};
ghost use Rattle.refusals.specs.Answers.{code, bytes_of};
ghost use Rattle.stamp.specs.Layout.{format, units_of, is_null, kind_of, kind_number, second_reached};
ghost use Rattle.stamp.specs.Read.{stamp_of, reserved_set, read_checks, read_of, stamp_told};
ghost use Rattle.stamp.specs.Write.{fields_of, write_checks, write_of};

use refusals::Refusal;

// Subsecond units, whose length goes by the bandwidth code. A type of its own: no function adds it to another clock's time.
#[derive(Clone, Copy, Debug, PartialEq, Eq)]
pub struct Subseconds(pub u32);

// The fields of a stamp, in their order: bw, seconds_since_2000, subseconds, utco.
#[derive(Clone, Copy, Debug, PartialEq, Eq)]
pub struct Stamp {
    pub bw: u8,
    pub seconds: u64,
    pub subseconds: Subseconds,
    pub utco: u16,
}

// What a stamp says of the time of emission: the second too, the place within any second, or nothing; to C, a number.
#[derive(Clone, Copy, Debug, PartialEq, Eq)]
pub enum Kind {
    Absolute = 0,
    Relative = 1,
    Null = 2,
}

// A kind's number.
impl From<Kind> for u8 {
    ghost from_gives = { λ kind n. n ≡ kind_number kind };

    fn from(kind: Kind) -> u8 {
        kind as u8
    }
}

// Subsecond units in a microsecond, by bandwidth code.
const UNITS: [u32; 6] = [131, 40, 48, 56, 64, 80];

// The subsecond units in a microsecond at a bandwidth code; 0 for a reserved code.
pub fn units(bw: u8) -> u32
    ensures { result ≡ units_of bw }
{
    UNITS.get(usize::from(bw)).copied().unwrap_or(0)
}

// Whether seconds, subseconds and utco are all ones.
#[tactic(auto, unfolding(crate::specs::Layout::is_null))]
fn is_null(stamp: Stamp) -> bool
    ensures { result ≡ is_null stamp }
{
    stamp.seconds == 0xff_ffff_ffff && stamp.subseconds.0 == 0x7ff_ffff && stamp.utco == 0x1fff
}

// Which of the three kinds a stamp is.
#[tactic(auto, unfolding(crate::specs::Layout::kind_of))]
pub fn kind_of(stamp: Stamp) -> Kind
    ensures { result ≡ kind_of stamp }
{
    if is_null(stamp) {
        return Kind::Null;
    }
    if stamp.seconds == 0 {
        return Kind::Relative;
    }
    Kind::Absolute
}

// Whether the subseconds reach a whole second, as only a null stamp's may.
#[tactic(auto, unfolding(crate::specs::Layout::second_reached))]
fn second_reached(stamp: Stamp) -> bool
    ensures { result ≡ second_reached stamp }
{
    units(stamp.bw) * 1_000_000 <= stamp.subseconds.0 && !is_null(stamp)
}

// The fields of a payload. Its 88 bits are two numbers: the last 40 hold subseconds and utco.
fn stamp_of(payload: &[u8; 11]) -> Stamp
    ensures { result ≡ stamp_of payload.now }
{
    let front = fields::number_at(payload, 0, 6);
    let back = fields::number_at(payload, 6, 5);
    let bw = (front / 0x100_0000_0000 % 16) as u8;
    let seconds = front % 0x100_0000_0000;
    let subseconds = (back / 0x2000 % 0x800_0000) as u32;
    let utco = (back % 0x2000) as u16;
    Stamp {
        bw,
        seconds,
        subseconds: Subseconds(subseconds),
        utco,
    }
}

// Whether one of the four reserved bits is set.
fn reserved_set(payload: &[u8; 11]) -> bool
    ensures { result ≡ reserved_set payload.now }
{
    let front = fields::number_at(payload, 0, 6);
    front / 0x1000_0000_0000 % 16 != 0
}

// Reads a timestamp payload.
#[tactic(auto, unfolding(crate::specs::Read::read_checks, crate::specs::Read::read_of, refusals::specs::Answers::answer))]
pub fn read(payload: &[u8]) -> Result<Stamp, Refusal>
    ensures { stamp_told result ≡ read_of payload.now }
{
    let Some(whole) = payload.as_array::<11>() else {
        return Err(Refusal::PayloadSizeWrong);
    };
    if reserved_set(whole) {
        return Err(Refusal::ReservedBitSet);
    }
    let stamp = stamp_of(whole);
    if 5 < stamp.bw {
        return Err(Refusal::BandwidthCodeOver5);
    }
    if second_reached(stamp) {
        return Err(Refusal::SubsecondsOverASecond);
    }
    Ok(stamp)
}

// Whether seconds, subseconds or utco is too wide for its bits. A bandwidth code up to 5 is not.
#[tactic(auto, unfolding(fields::specs::Formats::too_wide))]
fn field_too_wide(stamp: Stamp) -> bool
    requires { stamp.bw ≤ 5 }
    ensures { result ≡ too_wide format (fields_of stamp) }
{
    0xff_ffff_ffff < stamp.seconds || 0x7ff_ffff < stamp.subseconds.0 || 0x1fff < stamp.utco
}

// Refuses a stamp that no payload holds, and too little room.
#[tactic(auto, unfolding(crate::specs::Write::write_checks))]
fn check_write(stamp: Stamp, room: usize) -> Result<(), Refusal>
    ensures { code result ≡ first (write_checks stamp room) }
{
    if 5 < stamp.bw {
        return Err(Refusal::BandwidthCodeOver5);
    }
    if field_too_wide(stamp) {
        return Err(Refusal::TooWideOrUnfitState);
    }
    if second_reached(stamp) {
        return Err(Refusal::SubsecondsOverASecond);
    }
    if room < 11 {
        return Err(Refusal::OutputShort);
    }
    Ok(())
}

// Writes a timestamp payload to the front of out, the reserved bits zero; gives how many bytes it has.
pub fn write(stamp: Stamp, out: &mut [u8]) -> Result<u32, Refusal>
    ensures { record { answer = bytes_of result; out = out.new } ≡ write_of stamp out.old }
{
    check_write(stamp, out.len())?;
    let front = u64::from(stamp.bw) * 0x100_0000_0000 + stamp.seconds;
    let back = u64::from(stamp.subseconds.0) * 0x2000 + u64::from(stamp.utco);
    fields::store_at(out, 0, 6, front);
    fields::store_at(out, 6, 5, back);
    Ok(11)
}
