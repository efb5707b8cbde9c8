// The text of a listing (01, "Listing program"): its lines, and one step of a listing, which takes a transport packet and adds
// the lines of the T2-MI packets that it finishes. Where a line has no room nothing of it is laid.
#![tactic(auto)]

ghost use Rattle.std.specs.Prelude.{◌≡◌, nat_eq, ◌+◌, ◌-◌, ◌*◌, ◌<◌, ◌≤◌, ◌++◌, length, leb, Ok};
ghost use Rattle.arrayvec.specs.ArrayString.{array_string_len};
ghost use Rattle.gather.specs.Gather.{gathered_told};
ghost use Rattle.packet.specs.Cut.{cut};
ghost use Rattle.packet.specs.Read.{packet_told};
ghost use Rattle.text.specs.Laid.{word, Appends, Lays};
ghost use Rattle.lines.specs.Lines.{head_line, fields_line, refused_line, line_for, line_by, lines_of, last_line};
ghost use Rattle.lines.specs.Pieces.{pieces, kept_of};
ghost use Rattle.lines.specs.Listing.{start_listing, after_of, roomy, step_of, step_told, fed_of, fed_told};

use arrayvec::ArrayString;
use gather::{Gathered, Reader};
use itoa::Buffer;
use packet::{Header, Packets};
use refusals::Refusal;
use text::Text;

// A line under way: at most five numbers, and what stands behind each.
type Line = ArrayString<105>;

// A listing under way: the reader, the packets that it handed out so far, and its loss marks.
#[derive(Clone, Copy, Debug, PartialEq, Eq)]
pub struct Listing {
    pub reader: Reader,
    pub packets: u64,
    pub gaps: u64,
}

// What feeding a block gives: how many of its bytes are taken, and whether it stopped before a piece whose lines may have too
// little room. Neither is said by the other alone, so both are told.
#[derive(Clone, Copy, Debug, PartialEq, Eq)]
pub struct Fed {
    pub full: bool,
    pub taken: usize,
}

// Appends a number, which has at most 20 digits, and what stands behind it.
fn lay_word(line: &mut Line, n: u64, end: char)
    requires { (array_string_len line.old + 21 ≤ 105) × (end < 128) }
    ensures bytes { line.new.bytes ≡ line.old.bytes ++ word n end }
    ensures few { array_string_len line.new ≤ array_string_len line.old + 21 }
{
    line.push_str(Buffer::new().format(n));
    line.push(end);
}

// The line of a header's fields.
#[tactic(auto, unfolding(crate::specs::Lines::fields_line))]
fn fields_line(h: Header) -> Line
    ensures { result.bytes ≡ fields_line h }
{
    let mut line = Line::new();
    lay_word(&mut line, u64::from(h.kind), ' ');
    lay_word(&mut line, u64::from(h.count), ' ');
    lay_word(&mut line, u64::from(h.frame), ' ');
    lay_word(&mut line, u64::from(h.stream), ' ');
    lay_word(&mut line, u64::from(h.bits), '\n');
    line
}

// The line of a refusal, by its number.
#[tactic(auto, unfolding(crate::specs::Lines::refused_line))]
fn refused_line(number: u32) -> Line
    ensures { result.bytes ≡ refused_line number }
{
    let mut line = Line::new();
    line.push_str("refused ");
    lay_word(&mut line, u64::from(number), '\n');
    line
}

// The line of the totals.
#[tactic(auto, unfolding(crate::specs::Lines::last_line))]
fn totals_line(packets: u64, gaps: u64) -> Line
    ensures { result.bytes ≡ last_line packets gaps }
{
    let mut line = Line::new();
    line.push_str("packets ");
    lay_word(&mut line, packets, ' ');
    line.push_str("gaps ");
    lay_word(&mut line, gaps, '\n');
    line
}

// Appends the line of a packet's header, or of the number of its refusal. The line is made aside, so that all of it is laid or
// nothing. A number, no Refusal: what is promised holds of any number, and a narrower type would ask more of callers.
pub fn line(text: &mut Text, p: Result<Header, u32>)
    ensures { Appends (line_for p) text.old text.new }
{
    let line = match p {
        Ok(h) => fields_line(h),
        Err(number) => refused_line(number),
    };
    text.append(line.as_bytes());
}

// Appends the line of what reading a packet gave.
#[tactic(auto, using(crate::proofs::LineLaws::told_refused, crate::proofs::LineLaws::told_fields))]
fn lay_line(text: &mut Text, p: Result<Header, Refusal>)
    ensures { Appends (line_by (packet_told p)) text.old text.new }
{
    line(text, p.map_err(Refusal::number));
}

// Appends the header.
#[tactic(auto, unfolding(crate::specs::Lines::head_line))]
pub fn head_line(text: &mut Text)
    ensures { Appends head_line text.old text.new }
{
    text.append(b"type count frame stream bits\n");
}

// Lays the lines of the packets of s, which stand back to back, up to the first that is not whole. The CRC that reading judges
// is known to hold by then; optimised, the program looks at it once.
fn lay_lines(text: &mut Text, s: &[u8])
    requires { text.old.at + 2 * length s.now ≤ length text.old.lines.now }
    ensures { Lays (lines_of (cut s.now).packets) text.old text.new }
{
    for packet in Packets::of(s) {
        let Ok(packet) = packet else {
            return;
        };
        let read = packet::read(packet);
        lay_line(text, read);
    }
}

// Whether the lines of any call have room: a line is at most 19 bytes, and its packet at least 10.
#[tactic(auto, unfolding(crate::specs::Listing::roomy))]
fn has_room(filled: usize, space: usize, room: usize) -> bool
    ensures { result ≡ roomy filled space room }
{
    space <= room / 2 && filled <= room - 2 * space
}

// Moves the bytes of a block from at on, of the first have, to its front, and gives their number. Places beside the slice:
// docs/STATEMENTS.md has it for any numbers.
pub fn keep_rest(block: &mut [u8], at: usize, have: usize) -> usize
    ensures { record { at = result; lines = block.new } ≡ kept_of at have block.old }
{
    if block.len() < have || have < at {
        return 0;
    }
    block.copy_within(at..have, 0);
    have - at
}

impl Listing {
    // A listing that has seen nothing: the reader of PID 0x1000.
    pub fn start() -> Listing
        ensures { result ≡ start_listing }
    {
        Listing {
            reader: Reader::start(0x1000).unwrap(),
            packets: 0,
            gaps: 0,
        }
    }

    // Counts what a call of the reader gave.
    #[tactic(auto, unfolding(crate::specs::Listing::capped))]
    fn count(&mut self, call: Gathered)
        ensures { self.new ≡ after_of self.old (gathered_told self.old.reader (Ok call)) }
    {
        self.packets = self.packets.saturating_add(call.packets as u64);
        self.gaps = self.gaps.saturating_add(u64::from(call.marks.loss));
    }

    // Takes one transport packet, and appends the lines of what it finishes. gathering and output are the reader's, apart as
    // Reader::gather takes them. Where the text may have too little room nothing is done, and it says so by false.
    pub fn step(
        &mut self,
        transport: &[u8],
        gathering: &mut [u8],
        output: &mut [u8],
        text: &mut Text,
    ) -> bool
        ensures same_reference { text.new.lines.ghost_name ≡ text.old.lines.ghost_name }
        ensures stepped { record { answer = step_told self.new text.new.at result; gathering = gathering.new; output = output.new; lines = text.new.lines.now } ≡ step_of self.old transport.now gathering.old output.old text.old.lines.now text.old.at }
    {
        if !has_room(text.at, output.len(), text.lines.len()) {
            return false;
        }
        // a refused packet gives nothing
        let call = self
            .reader
            .gather(transport, gathering, output)
            .unwrap_or_default();
        self.count(call);
        lay_lines(text, &output[..call.bytes]);
        true
    }

    // Takes the whole pieces of a block, and appends their lines. Where it is full a whole piece is left of the block, and else
    // none.
    pub fn feed(
        &mut self,
        block: &[u8],
        gathering: &mut [u8],
        output: &mut [u8],
        text: &mut Text,
    ) -> Fed
        ensures same_reference { text.new.lines.ghost_name ≡ text.old.lines.ghost_name }
        ensures full { result.full ≡ leb 188 (length block.now - result.taken) }
        ensures fed { record { answer = fed_told self.new (length block.now) result.taken text.new.at; gathering = gathering.new; output = output.new; lines = text.new.lines.now } ≡ fed_of (pieces block.now) self.old gathering.old output.old text.old.lines.now 0 text.old.at }
    {
        let mut taken = 0; // counted for the answer
        for piece in block.chunks_exact(188) {
            if !self.step(piece, gathering, output, text) {
                return Fed {
                    full: true, // before this piece
                    taken, // it is fed again
                };
            }
            taken += 188;
        }
        Fed {
            full: false, // no whole piece is left
            taken,
        }
    }

    // Appends the line of the totals.
    pub fn last_line(self, text: &mut Text)
        ensures { Appends (last_line self.packets self.gaps) text.old text.new }
    {
        text.append(totals_line(self.packets, self.gaps).as_bytes());
    }
}
