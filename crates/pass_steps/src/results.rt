// The corrected, or adjusted, angles: document 01, "The two passes", and number 7.
// A cast by `as` stands where the library has no `From`, to a narrower type or to and from usize; each is proved to keep its value.
ghost use Rattle.std.specs.Prelude.{◌≡◌, ℕ, ◌<◌, pos, nat_abs, ◌+ℤ◌, length, ◌≤ℤ◌};
ghost use Rattle.whole.specs.Sums.{vector};
ghost use Rattle.refusals.specs.Order.{judged};
ghost use Rattle.refusals.specs.Ranges.{least_angle, most_angle};
ghost use Rattle.judging.specs.Searches.{results_of};
ghost use Rattle.refusals.specs.Promise.{stored};
ghost use Rattle.pass_steps.specs.Steps.{results_rows, results_from};

use judging::{check_lengths, check_results};
use refusals::Refusal;

// Each angle with its rounded correction, where none leaves the angles' range.
#[tactic(auto, unfolding(refusals::specs::Order::answer_of))]
pub fn results_into(angles: &[u32], rounded: &[i32], results: &mut [u32]) -> Result<(), Refusal>
    ensures answer { result ≡ judged (results_rows angles.now rounded.now (length results.old)) }
    ensures left { results.new ≡ stored (judged (results_rows angles.now rounded.now (length results.old)))
        (results_from angles.now rounded.now) results.old }
{
    check_lengths(
        &[rounded.len(), results.len()],
        &[angles.len(), angles.len()],
    )?;
    check_results(angles, rounded)?;
    store_results(angles, rounded, results);
    Ok(())
}

// Number 7 has passed.
fn store_results(angles: &[u32], rounded: &[i32], results: &mut [u32])
    requires rounded_len { length rounded.now ≡ length angles.now }
    requires results_len { length results.old ≡ length angles.now }
    requires by_index { (i : ℕ) → i < length angles.now → (pos least_angle ≤ℤ vector (results_of angles.now rounded.now) i)
        × (vector (results_of angles.now rounded.now) i ≤ℤ pos most_angle) }
    ensures { results.new ≡ results_from angles.now rounded.now }
{
    for (i, result) in results.iter_mut().enumerate() {
        *result = with_correction(angles[i], rounded[i]);
    }
}

fn with_correction(angle: u32, correction: i32) -> u32
    requires from_least { pos least_angle ≤ℤ (pos angle +ℤ correction) }
    requires to_most { (pos angle +ℤ correction) ≤ℤ pos most_angle }
    ensures { result ≡ nat_abs (pos angle +ℤ correction) }
{
    (i64::from(angle) + i64::from(correction)) as u32
}
