// Individual addressing: the data's check, the payload of type 0x21, and the walk for one transmitter.
#![tactic(auto)]

mod walks;

ghost use Rattle.std.specs.Prelude.{◌≡◌, ◌||◌, ◌≤◌, eqb, length};
ghost use Rattle.refusals.specs.Checks.{first};
ghost use Rattle.refusals.specs.Answers.{code, bytes_of};
ghost use Rattle.addressing.specs.Data.{house, group_cut, body_length, function_cut, function_checks, fault_of, fault_told};
ghost use Rattle.addressing.specs.Payload.{size_wrong, payload_checks, payload_of, payload_told, data_read, write_checks, write_of};
ghost use Rattle.addressing.specs.Walk.{hears as heard_by, walk_of, walked_told};
ghost use Rattle.addressing.specs.Cursor.{header_told, group_header, function_header, header_at, unseen, seen_after, answer_of, passed_told, pass_of};

use refusals::Refusal;
pub use walks::{Walk, walk_from};

// The first fault of addressing data in byte order: why it is refused, and the byte, counted from the data's first, of
// the group or function header where the check stopped.
#[derive(Clone, Copy, Debug, PartialEq, Eq)]
pub struct Fault {
    pub refusal: Refusal,
    pub place: usize,
}

impl From<Fault> for Refusal {
    ghost from_gives = { λ fault refusal. refusal ≡ fault.refusal };

    fn from(fault: Fault) -> Refusal {
        fault.refusal
    }
}

// A function that a walk gives: its tag, and its body, which is data[start .. start + body].
#[derive(Clone, Copy, Debug, PartialEq, Eq)]
pub struct Given {
    pub tag: u8,
    // Places, no slice: sfn_walk gives C these (docs/DECISIONS.md).
    pub start: usize,
    pub body: usize,
}

// A walk's answer: the function that it found, or none at the data's end, and the place to walk on from.
#[derive(Clone, Copy, Debug, PartialEq, Eq)]
pub struct Walked {
    pub next: usize,
    pub step: Option<Given>,
}

// Where a pass over the data is: its place, and the end and the owner of the loop that it is in or has just left.
#[derive(Clone, Copy)]
struct Cursor {
    at: usize,
    end: usize,
    owner: u16,
}

// A header: a group's, with how many bytes its loop has, or a function's, with how many its body has.
#[derive(Clone, Copy)]
enum Header {
    Group { owner: u16, bytes: usize },
    Function { tag: u8, body: usize },
}

// What a walk from a place has seen of the functions for its transmitter: whether it reaches the place, and the answer
// for the first function that begins there or later.
#[derive(Clone, Copy)]
struct Seen {
    place: usize,
    // A flag of its own: it holds with and without a first.
    reached: bool,
    first: Option<Walked>,
}

// The house rule: function_length counts both of the function's own bytes before its body, tag and length (01). Every
// function that looks at a function_length takes how many of them it counts.
// A parameter, no const: an edit (check_counts_by_the_house_rule_always) and specs/Data speak of any number.
const HOUSE: u8 = 2;

// How many bytes the body of the function at the front of l has.
fn body_length(l: &[u8], own: u8) -> usize
    ensures { result ≡ body_length own l.now }
{
    usize::from(fields::byte_at(l, 1).saturating_sub(own))
}

// Whether the function at the front of l, which is what is left of its loop, is cut.
fn function_cut(l: &[u8], own: u8) -> bool
    ensures { result ≡ function_cut own l.now }
{
    l.len() < 2 || fields::byte_at(l, 1) < own || l.len() < 2 + body_length(l, own)
}

// Refuses the function at the front of l where it has a fault.
#[tactic(auto, unfolding(crate::specs::Data::function_checks))]
fn check_function(l: &[u8], own: u8) -> Result<(), Refusal>
    ensures { code result ≡ first (function_checks own l.now) }
{
    if function_cut(l, own) {
        return Err(Refusal::FunctionCut);
    }
    let tag = fields::byte_at(l, 0);
    if functions::body_wrong(tag, body_length(l, own)) {
        return Err(Refusal::FunctionLengthWrong);
    }
    if functions::bandwidth_reserved(tag, fields::byte_at(l, 2)) {
        return Err(Refusal::BandwidthValueReserved);
    }
    Ok(())
}

// The header of the function at the front of l.
#[tactic(auto, unfolding(crate::specs::Cursor::function_header, refusals::specs::Answers::answer))]
fn function_header(l: &[u8], own: u8) -> Result<Option<Header>, Refusal>
    ensures { header_told result ≡ function_header own l.now }
{
    check_function(l, own)?;
    let tag = fields::byte_at(l, 0);
    let body = body_length(l, own);
    Ok(Some(Header::Function { tag, body }))
}

// Whether the group at the front of l, which is what is left of the data, is cut.
fn group_cut(l: &[u8]) -> bool
    ensures { result ≡ group_cut l.now }
{
    l.len() < 3 || l.len() < 3 + usize::from(fields::byte_at(l, 2))
}

// The header of the group at the front of l.
#[tactic(auto, unfolding(crate::specs::Cursor::group_header, crate::specs::Data::group_checks, refusals::specs::Answers::answer))]
fn group_header(l: &[u8]) -> Result<Option<Header>, Refusal>
    ensures { header_told result ≡ group_header l.now }
{
    if group_cut(l) {
        return Err(Refusal::GroupCut);
    }
    let owner = u16::from_be_bytes([fields::byte_at(l, 0), fields::byte_at(l, 1)]);
    let bytes = usize::from(fields::byte_at(l, 2));
    Ok(Some(Header::Group { owner, bytes }))
}

// The header at a cursor: a function's in a loop, a group's at a loop's end, and none at the data's end.
#[tactic(auto, unfolding(crate::specs::Cursor::header_at, fields::specs::Parts::part))]
fn header_at(data: &[u8], own: u8, c: Cursor) -> Result<Option<Header>, Refusal>
    requires { (c.at ≤ c.end) × (c.end ≤ length «data».now) }
    ensures { header_told result ≡ header_at own «data».now c }
{
    if c.at < c.end {
        return function_header(&data[c.at..c.end], own);
    }
    if c.at < data.len() {
        return group_header(&data[c.at..]);
    }
    Ok(None)
}

// Whether the transmitter hears a group: it is its own, or broadcast.
fn hears(transmitter: u16, owner: u16) -> bool
    ensures { result ≡ heard_by transmitter owner }
{
    owner == transmitter || owner == 0
}

impl Seen {
    // What a walk has seen at the data's start.
    fn new(place: usize) -> Seen
        ensures { result ≡ unseen place }
    {
        Seen {
            place,
            reached: place == 0,
            first: None,
        }
    }

    // Whether the walk reaches its place: it did before, or this other place is it.
    fn reaches(self, other: usize) -> bool
        ensures { result ≡ (self.reached || eqb self.place other) }
    {
        self.reached || self.place == other
    }

    // What it has seen after the function at place at, for which w is the answer. A function that is not heard changes
    // nothing. By cases and not by `or`: a struct made for each function made a walk over many three times as slow.
    fn after(self, heard: bool, at: usize, w: Walked) -> Seen
        ensures { result ≡ seen_after heard at w self }
    {
        if !heard {
            return self;
        }
        let reached = self.reaches(w.next);
        if self.first.is_some() || at < self.place {
            return Seen { reached, ..self };
        }
        Seen {
            place: self.place,
            reached,
            first: Some(w),
        }
    }

    // The walk's answer where no function is left: the first that begins at the place or later, or the end, if the walk
    // reaches the place.
    fn finished(self, end: usize) -> Result<Walked, Refusal>
        ensures { walked_told result ≡ answer_of end self }
    {
        if !self.reaches(end) {
            return Err(Refusal::TooWideOrUnfitState);
        }
        Ok(
            self.first.unwrap_or(Walked {
                next: end,
                step: None,
            }),
        )
    }
}

// Goes over all of the data once, from header to header: its first fault, or what a walk from the place has seen.
fn pass(data: &[u8], own: u8, transmitter: u16, place: usize) -> Result<Seen, Fault>
    ensures { passed_told (length «data».now) result ≡ pass_of own «data».now transmitter place }
{
    let mut seen = Seen::new(place);
    let mut c = Cursor {
        at: 0,
        end: 0,
        owner: 0,
    };
    // No range: each header tells where the next one stands.
    loop {
        let at = c.at;
        match header_at(data, own, c) {
            Ok(Some(Header::Group { owner, bytes })) => {
                let start = at + 3;
                let end = start + bytes;
                c = Cursor {
                    at: start,
                    end,
                    owner,
                };
            }
            Ok(Some(Header::Function { tag, body })) => {
                let start = at + 2;
                let next = start + body;
                let step = Some(Given { tag, start, body });
                seen = seen.after(hears(transmitter, c.owner), at, Walked { next, step });
                c.at = next;
            }
            Ok(None) => return Ok(seen),
            // No map_err: tried; the closure's post could not be opened behind the match.
            Err(refusal) => return Err(Fault { refusal, place: at }),
        }
    }
}

// The first fault of addressing data in byte order.
#[tactic(auto, unfolding(crate::specs::Cursor::pass_of))]
pub fn check(data: &[u8]) -> Result<(), Fault>
    ensures { fault_told result ≡ fault_of house «data».now }
{
    pass(data, HOUSE, 0, 0)?;
    Ok(())
}

// Whether a payload is not as long as its length byte says.
fn size_wrong(payload: &[u8]) -> bool
    ensures { result ≡ size_wrong payload.now }
{
    payload.len() < 2 || payload.len() != 2 + usize::from(fields::byte_at(payload, 1))
}

// Refuses what is no addressing payload.
#[tactic(auto, unfolding(crate::specs::Payload::payload_checks))]
fn check_payload(payload: &[u8]) -> Result<(), Refusal>
    ensures { code result ≡ first (payload_checks house payload.now) }
{
    if size_wrong(payload) {
        return Err(Refusal::PayloadSizeWrong);
    }
    if fields::byte_at(payload, 0) != 0 {
        return Err(Refusal::ReservedBitSet);
    }
    check(&payload[2..])?;
    Ok(())
}

// Reads an addressing payload: how many bytes of data it has.
#[tactic(auto, using(crate::proofs::PayloadLaws::read_long), unfolding(crate::specs::Payload::payload_of, refusals::specs::Answers::answer))]
pub fn payload_read(payload: &[u8]) -> Result<usize, Refusal>
    ensures { payload_told result ≡ payload_of house payload.now }
{
    check_payload(payload)?;
    Ok(payload.len() - 2)
}

// The data of an addressing payload as a part of it; an empty part where the payload is refused.
#[tactic(auto, using(crate::proofs::PayloadLaws::read_long), unfolding(crate::specs::Payload::data_read, refusals::specs::Answers::answer))]
pub fn payload_data(payload: &[u8]) -> &[u8]
    ensures { result.now ≡ data_read house payload.now }
{
    // No generic function: the ranges differ, and a closure for one of them is longer than this match.
    match check_payload(payload) {
        Ok(()) => &payload[2..],
        Err(_) => &payload[..0],
    }
}

// Refuses data that no payload holds, and too little room.
#[tactic(auto, unfolding(crate::specs::Payload::write_checks))]
fn check_write(data: &[u8], room: usize) -> Result<(), Refusal>
    ensures { code result ≡ first (write_checks house «data».now room) }
{
    if 255 < data.len() {
        return Err(Refusal::TooWideOrUnfitState);
    }
    check(data)?;
    if room < 2 + data.len() {
        return Err(Refusal::OutputShort);
    }
    Ok(())
}

// Writes an addressing payload to the front of out: a reserved byte of zero, the length, and the data; gives how many
// bytes it has.
#[tactic(auto, unfolding(crate::specs::Payload::write_of, refusals::specs::Answers::written, refusals::specs::Answers::answer))]
pub fn payload_write(data: &[u8], out: &mut [u8]) -> Result<u32, Refusal>
    ensures { record { answer = bytes_of result; out = out.new } ≡ write_of house «data».now out.old }
{
    check_write(data, out.len())?;
    let n = data.len();
    fields::store_at(out, 0, 2, n as u64);
    fields::copy(out, 2, n, data, 0);
    Ok((2 + n) as u32)
}

// The walk for one transmitter: what it finds from a place on, and where to go on from. Callers have it by `walk_from`.
#[tactic(auto, using(crate::proofs::CursorLaws::pass_walks), unfolding(crate::specs::Walk::walk_of, crate::specs::Walk::walk_checks, refusals::specs::Answers::answer))]
fn walk(data: &[u8], transmitter: u16, place: usize) -> Result<Walked, Refusal>
    ensures { walked_told result ≡ walk_of house «data».now transmitter place }
{
    if 255 < data.len() {
        return Err(Refusal::TooWideOrUnfitState);
    }
    let seen = pass(data, HOUSE, transmitter, place)?;
    seen.finished(data.len())
}
