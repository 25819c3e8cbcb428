// The corrections of the first pass, and what they leave: document 01, "The two passes".
ghost use Rattle.std.specs.Prelude.{◌≡◌, ◌+ℤ◌, length};
ghost use Rattle.whole.specs.Lists.{listed};
ghost use Rattle.whole.specs.Sums.{vector};
ghost use Rattle.refusals.specs.Order.{verdict_of};
ghost use Rattle.refusals.specs.Ranges.{most_limit};
ghost use Rattle.refusals.specs.Table.{results_row};
ghost use Rattle.judging.specs.Searches.{results_of};
ghost use Rattle.figures.specs.Figure.{angle_count, condition_count};
ghost use Rattle.pass_steps.specs.Premises.{Within, most_summed, most_total};
ghost use Rattle.refusals.specs.Promise.{stored};
ghost use Rattle.pass_rules.specs.Promises.{first_lent};
ghost use Rattle.pass_rules.specs.Lent.{first_held, SameFirstSlices};
ghost use Rattle.pass_steps.specs.Steps.{numerators_from};
ghost use Rattle.pass_first.specs.Steps.{tenths_of, rests_from, work_of, work_lent, work_lengths, first_from};

use crate::quotients::rounded_into;
use figures::{Figure, MOST_ANGLES};
use pass_rules::FirstRoom;
use pass_steps::{condition_sums, numerators_into, results_into, store};
use refusals::Refusal;

// Number 6 has passed.
pub(crate) fn first_corrected(
    figure: Figure,
    angles: &[u32],
    w: &[i32],
    room: &mut FirstRoom<'_>,
) -> Result<(), Refusal>
    requires angles_len { length angles.now ≡ angle_count figure }
    requires w_len { length w.now ≡ condition_count figure }
    requires room_len { work_lent (work_of (first_held room.old)) ≡ work_lengths figure }
    requires within { Within most_limit w.now }
    ensures answer { result ≡ verdict_of (results_row (results_of angles.now (tenths_of figure w.now))) }
    ensures left { work_of (first_held room.new) ≡ stored (verdict_of (results_row (results_of angles.now (tenths_of figure w.now))))
        (first_from figure angles.now w.now) (work_of (first_held room.old)) }
    ensures rounds { room.new.corrected_rounds.now ≡ room.old.corrected_rounds.now }
    ensures same { SameFirstSlices room.new room.old }
{
    let n = angles.len();
    let mut exact = [0; MOST_ANGLES];
    let mut tenths = [0; MOST_ANGLES];
    let exact = &mut exact[..n];
    let tenths = &mut tenths[..n];
    corrections_into(figure, w, exact, tenths);
    results_into(angles, tenths, room.corrected)?;
    store_first(figure, w, exact, tenths, room);
    Ok(())
}

// Numerators and rounded corrections.
fn corrections_into(figure: Figure, w: &[i32], exact: &mut [i32], tenths: &mut [i32])
    requires w_len { length w.now ≡ condition_count figure }
    requires exact_len { length exact.old ≡ angle_count figure }
    requires tenths_len { length tenths.old ≡ angle_count figure }
    requires within { Within most_limit w.now }
    ensures exact_after { exact.new ≡ numerators_from figure w.now }
    ensures tenths_after { tenths.new ≡ tenths_of figure w.now }
{
    numerators_into(figure, w, exact);
    rounded_into(figure, exact, tenths);
}

// The stores, once no row holds; the corrected angles are stored by `results_into`.
fn store_first(figure: Figure, w: &[i32], exact: &[i32], tenths: &[i32], room: &mut FirstRoom<'_>)
    requires w_len { length w.now ≡ condition_count figure }
    requires exact_len { length exact.now ≡ angle_count figure }
    requires tenths_len { length tenths.now ≡ angle_count figure }
    requires room_len { work_lent (work_of (first_held room.old)) ≡ work_lengths figure }
    requires within { Within most_limit w.now }
    requires within_2 { Within most_summed tenths.now }
    ensures left { first_held room.new ≡ first_lent w.now exact.now tenths.now room.old.corrected.now
        room.old.corrected_rounds.now (rests_from figure w.now tenths.now) }
    ensures same { SameFirstSlices room.new room.old }
{
    store(w, room.misclosures);
    store(exact, room.numerators);
    store(tenths, room.rounded);
    rests_into(figure, w, tenths, room.rests);
}

// What the rounded corrections leave of the misclosures.
fn rests_into(figure: Figure, w: &[i32], tenths: &[i32], rests: &mut [i32])
    requires w_len { length w.now ≡ condition_count figure }
    requires tenths_len { length tenths.now ≡ angle_count figure }
    requires rests_len { length rests.old ≡ condition_count figure }
    requires within { Within most_limit w.now }
    requires within_2 { Within most_summed tenths.now }
    ensures { rests.new ≡ rests_from figure w.now tenths.now }
{
    condition_sums(figure, tenths, rests);
    add_misclosures(w, rests);
}

fn add_misclosures(w: &[i32], rests: &mut [i32])
    requires rests_len { length rests.old ≡ length w.now }
    requires within { Within most_limit w.now }
    requires within_2 { Within most_total rests.old }
    ensures { rests.new
        ≡ listed (length w.now) (λ j. vector w.now j +ℤ vector rests.old j) }
{
    for (j, rest) in rests.iter_mut().enumerate() {
        *rest += w[j];
    }
}
