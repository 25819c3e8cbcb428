// The stores, once no row holds.
ghost use Rattle.std.specs.Prelude.{◌≡◌};
ghost use Rattle.refusals.specs.Promise.{stored};
ghost use Rattle.pass_steps.specs.Steps.{same_length};

use refusals::Refusal;

// Copies as many values as are lent, where the lengths are the same.
pub fn store<T: Copy>(values: &[T], lent: &mut [T])
    ensures { lent.new ≡ same_length values.now lent.old }
{
    whole::copy_over(values, lent);
}

// The rounds that were given, where every test has passed and the lengths are the same: document 02, M-106.
#[tactic(auto, unfolding(refusals::specs::Promise::stored))]
pub fn store_rounds(verdict: Result<(), Refusal>, rounds: &[u8], lent: &mut [u8])
    ensures { lent.new ≡ stored verdict (same_length rounds.now lent.old) lent.old }
{
    if verdict.is_ok() {
        store(rounds, lent);
    }
}
