// Carriage: the gathering reader. Transport packets of one PID go in one by one, and the T2-MI packets that they finish come
// out. The rules are those of specs/Rules.antt, stage by stage.
#![tactic(auto)]

ghost use Rattle.std.specs.Prelude.{◌≡◌, true, cond, eqb, ◌++◌, ◌+◌, ◌≤◌, ◌<◌, length, take, get_or, Ok, IfOk};
ghost use Rattle.refusals.specs.Checks.{first};
ghost use Rattle.refusals.specs.Answers.{code};
ghost use Rattle.packet.specs.Layout.{size_of};
ghost use Rattle.transport.specs.Look.{stands_in, seen_told};
ghost use Rattle.gather.specs.State.{start_of, started_told, count_over, unfit, gather_checks};
ghost use Rattle.gather.specs.Rules.{out_of_turn, reaches, rule_one};
ghost use Rattle.gather.specs.Gather.{in_hand, gather_of, gathered_told};
ghost use Rattle.gather.specs.Phases.{drops_in, lost_in, misfits_in, crc_fails_in, waits_in, hands_out_in, answer_by, unfinished_in, numbers, Ready, held_of, in_hand_of, Step, Stage, lays_out_of, led_of, with_start_of, followed_of};

use packet::Flaw;
use refusals::Refusal;
use std::mem;
use transport::Looked;

// A reader's state between two calls: its PID, the last count taken, whether it is in step, and how many bytes wait in the
// gathering buffer.
#[derive(Clone, Copy, Debug, PartialEq, Eq)]
pub struct Reader {
    pub pid: u16,
    pub last: Option<u8>,
    // No Option with what waits: a state that waits out of step is one that 38 refuses (waits_out_of_step, specs/State).
    pub in_step: bool,
    pub waiting: usize,
}

// The marks of a call. Three flags with no value beside them: each may be set without the others.
#[derive(Clone, Copy, Debug, Default, PartialEq, Eq)]
pub struct Marks {
    pub loss: bool,
    pub misfit: bool,
    pub crc: bool,
}

// What a call gives: the bytes and packets written, and the marks.
#[derive(Clone, Copy, Debug, Default, PartialEq, Eq)]
pub struct Gathered {
    pub bytes: usize,
    pub packets: usize,
    pub marks: Marks,
}

// What a call has in hand between two stages: whether it is in step, how many bytes wait in the gathering buffer, the bytes
// and packets handed out so far, the marks, and the two lent buffers. Each has a lifetime of its own, so that one can be taken
// out while the other is lent. `Ready`, in the contracts of its stages, is no invariant: it holds until a packet is handed out.
#[derive(Drop)]
struct Hand<'g, 'o> {
    in_step: bool,
    waiting: usize,
    bytes: usize,
    packets: usize,
    marks: Marks,
    gathering: &'g mut [u8],
    output: &'o mut [u8],
}

// Byte k of the bytes that wait, with those of d behind them; 0 past these.
fn nth(waiting: &[u8], d: &[u8], k: usize) -> u8
    ensures { result ≡ get_or (waiting.now ++ d.now) k 0 }
{
    if k < waiting.len() {
        return waiting[k];
    }
    fields::byte_at(d, k - waiting.len())
}

// The length that the bytes that wait, with those of d behind them, give their packet.
#[tactic(auto, unfolding(packet::specs::Layout::size_of))]
fn joined_length(waiting: &[u8], d: &[u8]) -> usize
    ensures { (result ≡ size_of (waiting.now ++ d.now)) × (result ≤ 8202) }
{
    let high = nth(waiting, d, 4);
    let low = nth(waiting, d, 5);
    packet::total(u32::from(u16::from_be_bytes([high, low])))
}

// Whether the bytes that wait reach the length that they give their packet. Fewer than six never do.
fn reached(waiting: &[u8]) -> bool
    ensures { result ≡ reaches waiting.now }
{
    packet::front_length(waiting) <= waiting.len()
}

// Whether a last count cannot be one.
fn count_over(last: Option<u8>) -> bool
    ensures { result ≡ count_over last }
{
    last.is_some_and(|n| 15 < n)
}

// Whether a count is not the next after the last one, if there is one.
fn out_of_turn(last: Option<u8>, count: u8) -> bool
    ensures { result ≡ out_of_turn last count }
{
    last.is_some_and(|n| usize::from(count) != (usize::from(n) + 1) % 16)
}

// The steps and stages of specs/Rules.antt.
impl Hand<'_, '_> {
    // Out of step with nothing waiting.
    fn drops(&mut self)
        ensures { Step drops_in self.old self.new }
    {
        self.in_step = false;
        self.waiting = 0; // what waited is dropped
    }

    // This and the next two are no one function over an enum of marks: each has a definition of its own, in two lines.
    fn lost(&mut self)
        ensures { Step lost_in self.old self.new }
    {
        self.marks.loss = true;
        self.drops();
    }

    fn misfits(&mut self)
        ensures { Step misfits_in self.old self.new }
    {
        self.marks.misfit = true;
        self.drops();
    }

    fn crc_fails(&mut self)
        ensures { Step crc_fails_in self.old self.new }
    {
        self.marks.crc = true;
        self.drops();
    }

    fn waits(&mut self, n: usize)
        ensures { Step (waits_in n) self.old self.new }
    {
        self.in_step = true;
        self.waiting = n;
    }

    // A packet of n bytes.
    fn hands_out(&mut self, n: usize)
        requires { (self.old.bytes + n < 65536) × (self.old.packets < 65536) }
        ensures { Step (hands_out_in n) self.old self.new }
    {
        self.waiting = 0;
        self.bytes += n;
        self.packets += 1;
    }

    // Drops a packet that is unfinished where another starts.
    fn unfinished(&mut self)
        ensures { Step unfinished_in self.old self.new }
    {
        if self.waiting != 0 {
            self.misfits();
        }
    }

    // The first n bytes of the gathering buffer.
    fn front(&self, n: usize) -> &[u8]
        requires { n ≤ length self.now.gathering.now }
        ensures { result.now ≡ take n self.now.gathering.now }
    {
        &self.gathering[..n]
    }

    // Copies the first n bytes of the gathering buffer to the front of the output.
    fn lays_out(&mut self, n: usize)
        ensures { Stage (lays_out_of n) self.old self.new }
    {
        let gathering = mem::take(&mut self.gathering); // two fields behind one `&mut` are not lent at once
        fields::copy(self.output, 0, n, gathering, 0);
        self.gathering = gathering;
    }

    // Rules 2 to 4 where bytes wait: those of d join them, up to the packet's own length.
    fn join(&mut self, d: &[u8])
        requires { Ready (in_hand_of self.old) × (self.old.in_step ≡ true) × (0 < self.old.waiting) × (length d.now ≤ 188) }
        ensures { Stage (led_of d.now) self.old self.new }
    {
        let w = self.waiting;
        let all = w + d.len();
        let size = joined_length(self.front(w), d);
        if all < size {
            fields::copy(self.gathering, w, d.len(), d, 0);
            return self.waits(all);
        }
        let used = size - w;
        fields::copy(self.gathering, w, used, d, 0);
        let packet = self.front(size);
        if !crc::holds(packet) {
            return self.crc_fails();
        }
        self.lays_out(size);
        self.hands_out(size);
        if size < all {
            self.misfits();
        }
    }

    // Rules 2 to 4 up to the start, or to the end where there is none, for the bytes of d.
    fn lead(&mut self, d: &[u8])
        requires { Ready (in_hand_of self.old) × (length d.now ≤ 188) }
        ensures { Stage (led_of d.now) self.old self.new }
    {
        if !self.in_step {
            return;
        }
        if self.waiting != 0 {
            return self.join(d);
        }
        if !d.is_empty() {
            self.misfits();
        }
    }

    // From the start on, packet after packet by their own lengths.
    fn follow(&mut self, onward: &[u8])
        requires few { (length onward.now ≤ 183) × (self.old.packets ≤ 1) × (self.old.bytes ≤ 8202) }
        requires room { self.old.bytes + length onward.now ≤ length self.old.output.now }
        ensures { Stage (followed_of onward.now) self.old self.new }
    {
        let mut rest = onward;
        // Not over packet::Packets: what is left behind the good packets waits, and the iterator keeps that to itself.
        loop {
            match packet::judge_front(rest) {
                Err(Flaw::Short) => return self.waits(rest.len()),
                Err(Flaw::Bad) => return self.crc_fails(),
                Ok(size) => {
                    fields::copy(self.output, self.bytes, size, rest, 0);
                    self.hands_out(size);
                    rest = &rest[size..];
                }
            }
        }
    }

    // Rules 3 and 4 with a start: the bytes before it, and those from it on.
    fn with_start(&mut self, before: &[u8], onward: &[u8])
        requires { Ready (in_hand_of self.old) × (length before.now ≤ 188) × (length onward.now ≤ 183) }
        ensures { Stage (with_start_of before.now onward.now) self.old self.new }
    {
        self.lead(before);
        self.unfinished();
        self.follow(onward);
        let waits = self.waiting;
        fields::copy(self.gathering, 0, waits, onward, onward.len() - waits);
    }
}

impl Reader {
    // Whether a state is unfit (38). No accepted call gives such a one; a refused call leaves what it found.
    #[tactic(auto, unfolding(crate::specs::State::unfit))]
    fn is_unfit(self) -> bool
        ensures { result ≡ unfit self }
    {
        transport::pid_outside(self.pid)
            || count_over(self.last)
            || 8201 < self.waiting
            || !self.in_step && 0 < self.waiting
    }

    // What is found in t, with so much room in the gathering buffer and space in the output, where gathering it is not refused.
    fn check(self, t: &[u8], room: usize, space: usize) -> Result<Looked, Refusal>
        ensures { (code result ≡ first (gather_checks self t.now room space)) × IfOk result (λ seen. seen_told seen ≡ stands_in t.now) }
    {
        if self.is_unfit() {
            return Err(Refusal::TooWideOrUnfitState);
        }
        if t.len() != 188 {
            return Err(Refusal::TransportNot188);
        }
        if room < 8202 {
            return Err(Refusal::GatheringBufferShort);
        }
        if space < 8385 {
            return Err(Refusal::ReaderOutputShort);
        }
        let seen = transport::look(t, self.pid)?;
        if self.last == Some(seen.count) {
            return Err(Refusal::CountRepeated);
        }
        Ok(seen)
    }

    // A fresh reader.
    pub fn start(pid: u16) -> Result<Reader, Refusal>
        ensures { started_told result ≡ start_of pid }
    {
        if transport::pid_outside(pid) {
            return Err(Refusal::PidOutOfRange);
        }
        Ok(Reader {
            pid,
            last: None,
            in_step: false,
            waiting: 0,
        })
    }

    // Rule 1.
    fn enter<'g, 'o>(self, count: u8, gathering: &'g mut [u8], output: &'o mut [u8]) -> Hand<'g, 'o>
        requires { self.waiting ≤ length gathering.old }
        ensures same_gathering { result.gathering.ghost_name ≡ gathering.entry.ghost_name }
        ensures same_output { result.output.ghost_name ≡ output.entry.ghost_name }
        ensures holds { in_hand_of result ≡ record { held = numbers (rule_one self.last count (in_hand self gathering.old)); gathering = gathering.old; output = output.old } }
    {
        let mut hand = Hand {
            in_step: self.in_step,
            waiting: self.waiting,
            bytes: 0,
            packets: 0, // nothing is handed out yet
            marks: Marks::default(),
            gathering,
            output,
        };
        if out_of_turn(self.last, count) {
            hand.lost();
        } else if reached(hand.front(self.waiting)) {
            hand.misfits();
        }
        hand
    }

    // Takes over what an accepted call has in hand at its end.
    fn settle(&mut self, count: u8, hand: &Hand) -> Gathered
        ensures { gathered_told self.new (Ok result) ≡ answer_by self.old.pid count (held_of hand.now) }
    {
        self.last = Some(count);
        self.in_step = hand.in_step;
        self.waiting = hand.waiting;
        Gathered {
            bytes: hand.bytes,
            packets: hand.packets,
            marks: hand.marks,
        }
    }

    // Takes one transport packet. What it finishes goes to the front of output, back to back; what is unfinished waits in
    // gathering, which is to be handed in again at the next call. A refused packet changes nothing.
    pub fn gather(
        &mut self,
        transport: &[u8],
        gathering: &mut [u8],
        output: &mut [u8],
    ) -> Result<Gathered, Refusal>
        ensures { record { answer = gathered_told self.new result; gathering = gathering.new; output = output.new } ≡ gather_of self.old transport.now gathering.old output.old }
    {
        let seen = self.check(transport, gathering.len(), output.len())?;
        let mut hand = self.enter(seen.count, gathering, output);
        match seen.pointer {
            Some(pointer) => {
                let (before, onward) = transport[seen.payload + 1..].split_at(pointer as usize);
                hand.with_start(before, onward);
            }
            None => hand.lead(&transport[seen.payload..]),
        }
        Ok(self.settle(seen.count, &hand))
    }
}
