// The gathering reader, as C sees it.
// Numbers for refusals, kinds and flags: C has no Option, Result or enum with values (include/sfn.h).
ghost use Rattle.std.specs.Prelude.{◌≡◌, ◌^◌, ◌<◌};
ghost use Rattle.gather.specs.State.{start_of};
ghost use Rattle.refusals.specs.Refusals.{number_of};
ghost use Rattle.sfn.specs.Reader.{reader_of, reader_from, started_of, refused_with, gathered_by};

use super::count_32;
use gather::Reader;
use refusals::Refusal;

// A reader's state. last is the last count taken, or 255 for none; in_step is 0 or 1.
#[repr(C)]
#[derive(Clone, Copy, Default)]
pub struct SfnReader {
    pub pid: u16,
    pub last: u8,
    pub in_step: u8,
    pub waiting: u32,
}

#[repr(C)]
#[derive(Clone, Copy, Default)]
pub struct SfnStarted {
    pub refusal: u32,
    pub reader: SfnReader,
}

// What gathering one transport packet gives. A mark is 1 where it is set.
#[repr(C)]
#[derive(Clone, Copy, Default)]
pub struct SfnGathered {
    pub refusal: u32,
    pub reader: SfnReader,
    pub bytes: u32,
    pub packets: u32,
    pub loss: u8,
    pub misfit: u8,
    pub crc: u8,
}

impl From<SfnReader> for Reader {
    ghost from_gives = { λ r s. s ≡ reader_from r };

    #[tactic(auto, unfolding(crate::specs::Reader::last_from))]
    fn from(r: SfnReader) -> Reader {
        Reader {
            pid: r.pid,
            last: (r.last != 255).then_some(r.last),
            in_step: r.in_step == 1,
            waiting: r.waiting as usize,
        }
    }
}

// A state laid out flat. No From: it asks that what waits fits C's 32 bits.
fn reader_flat(r: Reader) -> SfnReader
    requires { r.waiting < 2 ^ 32 }
    ensures { result ≡ reader_of r }
{
    SfnReader {
        pid: r.pid,
        last: r.last.unwrap_or(255),
        in_step: u8::from(r.in_step),
        waiting: count_32(r.waiting),
    }
}

// A refused call: its number, zeros, and the reader as it was handed in.
fn refused(refusal: Refusal, reader: SfnReader) -> SfnGathered
    ensures { result ≡ refused_with reader (number_of refusal) }
{
    SfnGathered {
        refusal: refusal.number(),
        reader,
        ..SfnGathered::default()
    }
}

pub fn sfn_start(pid: u16) -> SfnStarted
    ensures { result ≡ started_of (start_of pid) }
{
    match Reader::start(pid) {
        Ok(reader) => SfnStarted {
            refusal: 0,
            reader: reader_flat(reader),
        },
        Err(refusal) => SfnStarted {
            refusal: refusal.number(),
            ..SfnStarted::default()
        },
    }
}

pub fn sfn_gather(
    reader: SfnReader,
    transport: &[u8],
    gathering: &mut [u8],
    out: &mut [u8],
) -> SfnGathered
    ensures { record { answer = result; gathering = gathering.new; out = out.new } ≡ gathered_by reader transport.now gathering.old out.old }
{
    // Not by flag: an edit of its own changes this test.
    if 1 < reader.in_step {
        return refused(Refusal::TooWideOrUnfitState, reader);
    }
    let mut state = Reader::from(reader);
    match state.gather(transport, gathering, out) {
        Ok(g) => SfnGathered {
            refusal: 0,
            reader: reader_flat(state),
            bytes: count_32(g.bytes),
            packets: count_32(g.packets),
            loss: u8::from(g.marks.loss),
            misfit: u8::from(g.marks.misfit),
            crc: u8::from(g.marks.crc),
        },
        Err(refusal) => refused(refusal, reader),
    }
}
