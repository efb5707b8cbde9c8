// A walk for one transmitter that keeps the caller's addressing bytes and its place (01, "Code places and their
// forms"). `walk` judges and finds, on slice and numbers; what stands here is thin.
ghost use Rattle.std.specs.Prelude.{◌≡◌, OnErr};
ghost use Rattle.addressing.specs.Data.{house};
ghost use Rattle.addressing.specs.Walk.{walk_of, walked_told};
ghost use Rattle.addressing.specs.Steps.{fresh_walk, stepped_of, step_told};

use super::{Given, Walked, walk};
use refusals::Refusal;

// A walk: the addressing data, whose walk it is, and the place that it has come to.
#[derive(Clone, Copy, Debug, PartialEq, Eq)]
pub struct Walk<'a> {
    pub data: &'a [u8],
    pub transmitter: u16,
    pub at: usize,
}

impl<'a> Walk<'a> {
    // A fresh walk, at place 0. The data is judged by each step.
    pub fn new(data: &'a [u8], transmitter: u16) -> Walk<'a>
        ensures { result ≡ fresh_walk «data».entry transmitter }
    {
        Walk {
            data,
            transmitter,
            at: 0,
        }
    }

    // One step: the function that the walk finds at its place, or none at the data's end. The walk is then at the next
    // place; with a refusal it stays where it was (01, "hands back the old state").
    #[tactic(auto, unfolding(crate::specs::Steps::place_after))]
    pub fn step(&mut self) -> Result<Option<Given>, Refusal>
        ensures step { record { answer = step_told self.new.at result; walk = self.new } ≡ stepped_of self.old }
        ensures refused { OnErr result (self.new ≡ self.old) }
    {
        let walked = walk(self.data, self.transmitter, self.at)?;
        self.at = walked.next;
        Ok(walked.step)
    }
}

// A step from a place, for a caller that keeps slice and place itself: every caller of other crates. Its contract names
// no struct of a walk.
pub fn walk_from(data: &[u8], transmitter: u16, place: usize) -> Result<Walked, Refusal>
    ensures { walked_told result ≡ walk_of house «data».now transmitter place }
{
    let mut walk = Walk::new(data, transmitter);
    walk.at = place;
    let step = walk.step()?;
    Ok(Walked {
        next: walk.at,
        step,
    })
}
