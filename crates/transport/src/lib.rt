// Transport packets, as far as the writer and the reader both know them.
#![tactic(auto)]

ghost use Rattle.std.specs.Prelude.{◌≡◌, cond, List, ℕ, ◌+◌, eqb, get_or};
ghost use Rattle.refusals.specs.Checks.{first};
ghost use Rattle.refusals.specs.Answers.{code};
ghost use Rattle.transport.specs.Header.{head_of};
ghost use Rattle.transport.specs.Tests.{pid_outside, transport_checks};
ghost use Rattle.transport.specs.Look.{stands_in, look_of, seen_told, look_told};

use refusals::Refusal;

// What is found in a transport packet: its count, where its payload begins, and the pointer where a T2-MI packet begins in it.
// What the adaptation field says would stand behind these.
#[derive(Clone, Copy, Debug, PartialEq, Eq)]
pub struct Looked {
    pub count: u8,
    pub payload: usize,
    pub pointer: Option<u8>,
}

// Whether a PID is outside 0x0020 to 0x1FFE.
pub fn pid_outside(pid: u16) -> bool
    ensures { result ≡ pid_outside pid }
{
    !(0x0020..=0x1ffe).contains(&pid)
}

// The header as one number.
fn head_of(t: &[u8; 188]) -> u32
    ensures { result ≡ head_of t.now }
{
    u32::from_be_bytes([t[0], t[1], t[2], t[3]])
}

// Where the payload begins, by the adaptation control: 01 payload alone, 10 a field alone, 11 both.
fn payload_at(t: &[u8; 188], control: u32) -> usize
    ensures { result ≡ cond (eqb control 3) (5 + get_or t.now 4 0) 4 }
{
    if control == 3 {
        return 5 + usize::from(t[4]);
    }
    4
}

// All that is read of t, whose header is head. Each field lies as many bits from the header's end as those behind it take.
// Where a T2-MI packet begins, the pointer is the payload's first byte.
fn read(t: &[u8; 188], head: u32) -> Looked
    requires { head ≡ head_of t.now }
    ensures { seen_told result ≡ stands_in t.now }
{
    let begins = head / 0x40_0000 % 2 == 1;
    let payload = payload_at(t, head / 16 % 4);
    Looked {
        count: (head % 16) as u8,
        payload,
        pointer: begins.then_some(fields::byte_at(t, payload)),
    }
}

// Refuses by the first of 5 to 11 whose line holds, by what was read. A control of 00 or 10 is an even one, and a field of
// over 182 bytes leaves no payload within the packet.
fn check(head: u32, seen: Looked, pid: u16) -> Result<(), Refusal>
    ensures { (t : List ℕ) → head ≡ head_of t → seen_told seen ≡ stands_in t → code result ≡ first (transport_checks pid t) }
{
    if head / 0x100_0000 % 256 != 0x47 {
        return Err(Refusal::SyncByteWrong);
    }
    if head / 0x80_0000 % 2 == 1 {
        return Err(Refusal::TransportErrorMarked);
    }
    if head / 256 % 8192 != u32::from(pid) {
        return Err(Refusal::AnotherPid);
    }
    if head / 64 % 4 != 0 {
        return Err(Refusal::Scrambled);
    }
    if head / 16 % 2 == 0 {
        return Err(Refusal::NoPayload);
    }
    if 187 < seen.payload {
        return Err(Refusal::AdaptationFieldLong);
    }
    if seen
        .pointer
        .is_some_and(|p| 188 <= seen.payload + 1 + usize::from(p))
    {
        return Err(Refusal::PointerBeyondPayload);
    }
    Ok(())
}

// Reads a transport packet of this PID, once: all that the reader asks of it.
pub fn look(t: &[u8], pid: u16) -> Result<Looked, Refusal>
    ensures { look_told result ≡ look_of pid t.now }
{
    let Some(whole) = t.as_array::<188>() else {
        return Err(Refusal::TransportNot188);
    };
    let head = head_of(whole);
    let seen = read(whole, head);
    check(head, seen, pid)?;
    Ok(seen)
}
