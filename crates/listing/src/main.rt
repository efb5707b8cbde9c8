// Lists the T2-MI packets that standard input carries on PID 0x1000 (01, "Listing program"). What is printed is said and proved
// in the crate lines, and so is the cutting into pieces of 188 bytes; here bytes are read and text is written out, in the order
// that the theorem on whole listings (lines, specs/Theorems) has.
#![tactic(auto)]

ghost use Rattle.std.specs.Prelude.{◌≡◌, ◌≤◌, ◌<◌, is_ok, length, take, IfOk, OnErr, MatchOption};
ghost use Rattle.lines.specs.Listing.{start_listing};
ghost use Rattle.lines.specs.Theorems.{opened, Ends};

use lines::Listing;
use std::io::{ErrorKind, Read};
use std::process::ExitCode;
use text::Text;

// Why a listing is not whole.
#[derive(Clone, Copy, Debug, PartialEq, Eq)]
enum Fault {
    Input,
    Output,
    Silent, // of a reader of the output that went away nothing is said
}

impl Fault {
    // A message on standard error. Where that cannot be written either nothing is left to say.
    fn complain(self, rt: &impl Eprint) {
        let message = match self {
            Fault::Input => "listing: standard input cannot be read",
            Fault::Output => "listing: standard output cannot be written",
            Fault::Silent => return,
        };
        let _ = rt.eprintln(message);
    }
}

// Writes out a text.
fn write_out(rt: &impl Print, text: &[u8]) -> Result<(), Fault> {
    match rt.write_all(text) {
        Ok(()) => Ok(()),
        Err(e) if e.kind() == ErrorKind::BrokenPipe => Err(Fault::Silent),
        Err(_) => Err(Fault::Output),
    }
}

// How many bytes stand in the block with more of the input behind its first have; nothing at the input's end. Where a whole
// piece waits to be fed nothing is read. A count beside the block: no Vec, as nothing here has a heap.
fn more<R: Read>(input: &mut R, block: &mut [u8], have: usize) -> Result<Option<usize>, Fault>
    requires { have ≤ length block.old }
    ensures stays { (have ≤ length block.new) × (take have block.new ≡ take have block.old) }
    ensures came { IfOk result (λ came. MatchOption came (have < 188) (λ n. (have ≤ n) × (n ≤ length block.new))) }
    ensures failed { OnErr result (have < 188) }
{
    if 188 <= have {
        return Ok(Some(have));
    }
    match input.read(&mut block[have..]) {
        Ok(0) => Ok(None),
        Ok(came) => Ok(Some(have + came)),
        Err(_) => Err(Fault::Input),
    }
}

// Lists standard input to its end. After each read all its whole pieces are fed and their lines written out, before the next
// read; the cut one waits at the block's front. A proved loop has to end, and nothing says that the input does: it has a number
// of turns that no run uses up. The contract: some run (lines, specs/Theorems) came to the state that
// it ends in, and where the listing is whole it left no piece.
fn list_all<R: Read>(
    rt: &impl Print,
    input: &mut R,
    listing: &mut Listing,
    block: &mut [u8],
    gathering: &mut [u8],
    output: &mut [u8],
    text: &mut Text,
) -> Result<(), Fault>
    ensures { Ends (opened gathering.old output.old text.old.lines.now) listing.new gathering.new output.new text.new.lines.now (is_ok result) }
{
    *listing = Listing::start();
    let mut have: usize = 0;
    for _ in 0..u64::MAX {
        let Some(came) = more(input, block, have)? else {
            return Ok(());
        };
        text.at = 0; // what stands there is written out
        let fed = listing.feed(&block[..came], gathering, output, text);
        have = lines::keep_rest(block, fed.taken, came);
        write_out(rt, text.so_far())?;
    }
    Err(Fault::Silent)
}

// Lists standard input, from the header to the totals.
fn list(rt: &HostRuntime) -> Result<(), Fault> {
    let mut input = rt.stdin();
    let mut block = [0u8; 192512];
    let mut gathering = [0u8; 8202];
    let mut output = [0u8; 8385];
    let mut lines = [0u8; 65536];
    let mut text = Text::new(&mut lines);
    lines::head_line(&mut text);
    write_out(rt, text.so_far())?;
    let mut listing = Listing::start();
    list_all(
        rt,
        &mut input,
        &mut listing,
        &mut block,
        &mut gathering,
        &mut output,
        &mut text,
    )?;
    text.at = 0;
    listing.last_line(&mut text);
    write_out(rt, text.so_far())
}

// The exit status says whether the listing is whole.
fn main(rt: HostRuntime) -> ExitCode {
    match list(&rt) {
        Ok(()) => ExitCode::SUCCESS,
        Err(fault) => {
            fault.complain(&rt);
            ExitCode::FAILURE
        }
    }
}
