// An answer as one number: 0 for done, else number × 256 + place.
// A cast by `as` stands where the library has no `From`, to a narrower type or to and from usize; each is proved to keep its value.
ghost use Rattle.std.specs.Prelude.{◌≡◌, ◌<◌};
ghost use Rattle.refusals.specs.Numbers.{place_of, refusal_told, verdict_told};
ghost use Rattle.controller.specs.Answer.{place_step, answer_number};

use refusals::Refusal;

pub(crate) const DONE: u32 = 0;

const PLACE_STEP: u32 = 256;

pub(crate) fn refused(refusal: Refusal) -> u32
    requires { place_of refusal < place_step }
    ensures { result ≡ answer_number (refusal_told refusal) }
{
    refusal.number() * PLACE_STEP + refusal.place() as u32
}

pub(crate) fn answered(verdict: Result<(), Refusal>) -> u32
    requires { (verdict_told verdict).place < place_step }
    ensures { result ≡ answer_number (verdict_told verdict) }
{
    match verdict {
        Ok(()) => DONE,
        Err(refusal) => refused(refusal),
    }
}
