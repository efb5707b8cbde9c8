// Site timing: when a mega-frame is emitted, and how long a site holds it back.
ghost use Rattle.std.specs.Prelude.{◌≡◌};
ghost use Rattle.refusals.specs.Checks.{first};
ghost use Rattle.refusals.specs.Answers.{code};
ghost use Rattle.mip.specs.Layout.{second};
ghost use Rattle.mip.specs.Timing.{modulo, over, steps, time_checks, emission_of, extra_of, time_told};

use super::Steps;
use refusals::Refusal;

// The steps of a second.
const SECOND: u32 = 10_000_000;

impl Steps {
    // Whether it reaches a second.
    fn over(self) -> bool
        ensures { result ≡ over self }
    {
        SECOND <= self.0
    }
}

// Refuses a time stamp or a maximum delay of a second or more.
pub(crate) fn check_times(stamp: Steps, delay: Steps) -> Result<(), Refusal>
    ensures { code result ≡ first (time_checks stamp delay) }
{
    if stamp.over() {
        return Err(Refusal::TimeStampOver);
    }
    if delay.over() {
        return Err(Refusal::MaximumDelayOver);
    }
    Ok(())
}

// A sum of steps less whole seconds.
#[tactic(auto, using(crate::proofs::ModuloLaws::euclid_modulo, crate::proofs::ModuloLaws::modulo_lt))]
fn modulo_second(sum: i64) -> Steps
    ensures { result ≡ steps (modulo sum second) }
{
    Steps(sum.rem_euclid(i64::from(SECOND)) as u32)
}

// When the mega-frame that a MIP points at is emitted, within its second.
// Apart: emission_of and extra_of (specs/Timing) and C's functions take them so.
#[tactic(auto, unfolding(crate::specs::Timing::emission_of, crate::specs::Timing::emission_checks, refusals::specs::Answers::answer))]
pub fn emission(stamp: Steps, delay: Steps, offset: i32) -> Result<Steps, Refusal>
    ensures { time_told result ≡ emission_of stamp delay offset }
{
    if fields::outside(0x8000, offset) {
        return Err(Refusal::TooWideOrUnfitState);
    }
    check_times(stamp, delay)?;
    let sum = i64::from(stamp.0) + i64::from(delay.0) + i64::from(offset);
    Ok(modulo_second(sum))
}

// How long a site holds back what it received at reception.
#[tactic(auto, unfolding(crate::specs::Timing::extra_of, crate::specs::Timing::extra_checks, crate::specs::Timing::emission_of, crate::specs::Timing::emission_checks, refusals::specs::Answers::answer))]
pub fn extra_delay(
    stamp: Steps,
    delay: Steps,
    offset: i32,
    reception: Steps,
) -> Result<Steps, Refusal>
    ensures { time_told result ≡ extra_of stamp delay offset reception }
{
    let emitted = emission(stamp, delay, offset)?;
    if reception.over() {
        return Err(Refusal::ReceptionTimeOver);
    }
    Ok(modulo_second(i64::from(emitted.0) - i64::from(reception.0)))
}
