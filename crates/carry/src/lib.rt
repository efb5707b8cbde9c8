// Carriage: the batch writer. A batch of T2-MI packets goes into transport packets of one PID, by 01's four cases.
#![tactic(auto)]

ghost use Rattle.std.specs.Prelude.{◌≡◌, ◌&&◌, [], ◌∷◌, ◌*◌, ◌≤◌, ◌<◌, leb, ltb, length, take, drop};
ghost use Rattle.std.specs.Iterator.{YieldsFirstBy, item_count};
ghost use Rattle.fields.specs.Formats.{pack};
ghost use Rattle.fields.specs.Parts.{overlay};
ghost use Rattle.refusals.specs.Checks.{first};
ghost use Rattle.refusals.specs.Answers.{code};
ghost use Rattle.transport.specs.Header.{header};
ghost use Rattle.transport.specs.Load.{control_for, head_bytes, transport_of};
ghost use Rattle.carry.specs.Building.{blank, field_head, Held, Laid};
ghost use Rattle.carry.specs.Carry.{carry_checks, carried_told, carry_of};
ghost use Rattle.carry.specs.OnBytes.{left_of, loads_from, load_in, coming};

use refusals::Refusal;

// What was written: so many transport packets, and the count to go on with.
#[derive(Clone, Copy, Debug, PartialEq, Eq)]
pub struct Sent {
    pub packets: u32,
    pub next_count: u8,
}

// What C sees of carrying a batch: zeros with a refusal.
#[repr(C)]
#[derive(Clone, Copy)]
pub struct Carried {
    pub refusal: u32,
    pub packets: u32,
    pub next_count: u8,
}

impl From<Result<Sent, Refusal>> for Carried {
    ghost from_gives = { λ r c. c ≡ carried_told r };

    fn from(answer: Result<Sent, Refusal>) -> Carried {
        match answer {
            Ok(sent) => Carried {
                refusal: 0,
                packets: sent.packets,
                next_count: sent.next_count,
            },
            Err(refusal) => Carried {
                refusal: refusal.number(),
                packets: 0,
                next_count: 0,
            },
        }
    }
}

// What one transport packet carries: bytes of the batch, and where in them a packet begins, if one does.
#[derive(Clone, Copy)]
struct Piece<'a> {
    pointer: Option<u8>,
    bytes: &'a [u8],
}

// The pieces that a batch still gives: what is left of its bytes, and how many of them belong to the packet under way.
#[derive(Drop)]
struct Pieces<'a> {
    rest: &'a [u8],
    under_way: usize,
}

// Whether a transport packet has a start: r at most 182, and more than r bytes remain.
fn has_start(r: usize, rest: usize) -> bool
    ensures { result ≡ (ltb r rest && leb r 182) }
{
    r < rest && r <= 182
}

// How many bytes are left of the packet that so many bytes of the batch end in, from a packet's first byte on.
fn left_after(batch: &[u8], bytes: usize) -> usize
    requires { (bytes ≤ 183) × (bytes ≤ length batch.now) }
    ensures { result ≡ left_of bytes batch.now }
{
    let mut end = 0;
    // No range: each packet's own length tells where the next begins.
    while end < bytes {
        end += packet::front_length(&batch[end..]);
    }
    end - bytes
}

impl<'a> Pieces<'a> {
    // The pieces of a batch.
    fn of(batch: &'a [u8]) -> Pieces<'a>
        ensures { coming result ≡ loads_from 0 batch.now }
    {
        Pieces {
            rest: batch,
            under_way: 0,
        }
    }

    // The next n bytes, of which the packet under way then has so many left.
    fn hand_out(&mut self, pointer: Option<u8>, n: usize, left: usize) -> Piece<'a>
        requires { n ≤ length self.old.rest.now }
        ensures piece { (result.pointer ≡ pointer) × (result.bytes.now ≡ take n self.old.rest.now) }
        ensures rest { (self.new.rest.now ≡ drop n self.old.rest.now) × (self.new.under_way ≡ left) }
    {
        let (bytes, rest) = self.rest.split_at(n);
        self.rest = rest;
        self.under_way = left;
        Piece { pointer, bytes }
    }
}

impl<'a> Iterator for Pieces<'a> {
    type Item = Piece<'a>;

    ghost next_gives = { YieldsFirstBy load_in coming };

    ghost remaining = { item_count coming };

    fn next(&mut self) -> Option<Piece<'a>> {
        let r = self.under_way;
        let rest = self.rest.len();
        if rest == 0 {
            return None;
        }
        if has_start(r, rest) {
            let n = rest.min(183);
            let left = left_after(&self.rest[r..], n - r);
            return Some(self.hand_out(Some(r as u8), n, left));
        }
        let n = r.min(184).min(rest);
        Some(self.hand_out(None, n, r.saturating_sub(184)))
    }
}

// How many transport packets a batch needs.
fn needed(batch: &[u8]) -> usize
    ensures { (result ≡ length (loads_from 0 batch.now)) × (result ≤ length batch.now) }
{
    Pieces::of(batch).count()
}

// Adaptation control for so much room: payload alone, or a field and payload.
fn control_for(room: usize) -> u8
    ensures { result ≡ control_for room }
{
    if room == 0 { 1 } else { 3 }
}

// The transport header as one number: no error mark, priority 0, not scrambled.
fn header_number(pid: u16, begins: u8, control: u8, count: u8) -> u64
    ensures { result ≡ pack header (0x47 ∷ 0 ∷ begins ∷ 0 ∷ pid ∷ 0 ∷ control ∷ count ∷ []) }
{
    0x4700_0000
        + (u64::from(begins) * 0x40_0000
            + (u64::from(pid) * 0x100 + (u64::from(control) * 0x10 + u64::from(count))))
}

// Lays the bytes of an adaptation field that are not 0xFF.
fn put_field(t: &mut [u8; 188], room: usize)
    requires { room ≤ 183 }
    ensures { t.new ≡ overlay 4 (field_head room) t.old }
{
    if room == 0 {
        return;
    }
    t[4] = (room - 1) as u8;
    if room == 1 {
        return;
    }
    t[5] = 0;
}

// Makes t a packet of 0xFF with its header and its adaptation field.
fn put_head(t: &mut [u8; 188], pid: u16, begins: u8, count: u8, room: usize)
    requires { room ≤ 183 }
    ensures { t.new ≡ overlay 0 (head_bytes pid begins count room) blank }
{
    t.fill(0xff);
    fields::store_at(
        t,
        0,
        4,
        header_number(pid, begins, control_for(room), count),
    );
    put_field(t, room);
}

// Makes a part of the output the transport packet of a piece: behind its head the pointer, if there is one, and the bytes
// up to the end.
fn put_piece(part: &mut [u8], pid: u16, count: u8, piece: Piece)
    requires { (length part.old ≡ 188) × Held (load_in piece) }
    ensures { part.new ≡ transport_of pid count (load_in piece.entry) }
{
    // Made an array here and not in the loop of put_pieces: of one lent there a proof doesn't know what it ends as.
    let Some(t) = part.as_mut_array() else {
        unreachable!()
    };
    let n = piece.bytes.len();
    match piece.pointer {
        None => put_head(t, pid, 0, count, 184 - n),
        Some(pointer) => {
            put_head(t, pid, 1, count, 183 - n);
            t[187 - n] = pointer;
        }
    }
    fields::copy(t, 188 - n, n, piece.bytes, 0);
}

// Lays all transport packets of a batch over the front of out, the counts rising from the first. No struct of pid, first_count
// and batch: carry takes them so, and carry_checks and Laid cite them.
fn put_pieces(pid: u16, first_count: u8, batch: &[u8], out: &mut [u8]) -> Sent
    requires small { (first_count < 16) × (length batch.now ≤ 65536) }
    requires room { 188 * length (loads_from 0 batch.now) ≤ length out.old }
    ensures { Laid pid first_count (loads_from 0 batch.now) out.old result out.new }
{
    let mut packets = 0; // counted for the answer too
    let mut count = first_count;
    // Not over chunks_exact_mut: of a chunk whose borrow is over, a proof knows the length alone, and not the bytes.
    for piece in Pieces::of(batch) {
        let at = 188 * packets as usize;
        put_piece(&mut out[at..at + 188], pid, count, piece);
        packets += 1;
        count = (count + 1) % 16;
    }
    Sent {
        packets,
        next_count: count,
    }
}

// Refuses a batch that is not carried.
fn check_carry(pid: u16, first_count: u8, batch: &[u8], room: usize) -> Result<(), Refusal>
    ensures { code result ≡ first (carry_checks pid first_count batch.now room) }
{
    if transport::pid_outside(pid) {
        return Err(Refusal::PidOutOfRange);
    }
    if 15 < first_count {
        return Err(Refusal::FirstCountOver15);
    }
    if 65536 < batch.len() {
        return Err(Refusal::BatchLong);
    }
    packet::check_batch(batch)?;
    let size = 188 * needed(batch);
    if room < size {
        return Err(Refusal::OutputShort);
    }
    Ok(())
}

// Carries a batch of T2-MI packets, back to back, in transport packets of a PID, which are written to the front of out.
pub fn carry(pid: u16, first_count: u8, batch: &[u8], out: &mut [u8]) -> Result<Sent, Refusal>
    ensures { record { answer = carried_told result; out = out.new } ≡ carry_of pid first_count batch.now out.old }
{
    check_carry(pid, first_count, batch, out.len())?;
    Ok(put_pieces(pid, first_count, batch, out))
}
