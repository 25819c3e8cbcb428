// The exact first corrections, by the first pass itself, of which both operations need the misclosures and the numerators alone.
ghost use Rattle.std.specs.Prelude.{◌≡◌, length, OnOk};
ghost use Rattle.refusals.specs.Order.{judged};
ghost use Rattle.refusals.specs.Ranges.{most_limit};
ghost use Rattle.figures.specs.Figure.{angle_count, condition_count};
ghost use Rattle.pass_rules.specs.FirstPass.{misclosures_of, numerators_of};
ghost use Rattle.pass_steps.specs.Premises.{Within};
ghost use Rattle.closing.specs.Premises.{most_numerator};
ghost use Rattle.closing.specs.Promises.{closing_rows_for};

use figures::{Figure, MOST_ANGLES, MOST_CONDITIONS};
use judging::check_lengths;
use pass_first::first_pass_of;
use pass_rules::{FirstInput, FirstRoom};
use refusals::Refusal;

// What both operations begin with: number 2 of so many corrections, and the first pass.
pub(crate) fn exact_into(
    figure: Figure,
    given: FirstInput<'_>,
    corrections: usize,
    misclosures: &mut [i32],
    numerators: &mut [i32],
) -> Result<(), Refusal>
    requires misclosures_len { length misclosures.old ≡ condition_count figure }
    requires numerators_len { length numerators.old ≡ angle_count figure }
    ensures answer { result
        ≡ judged (closing_rows_for figure given.entry.limit given.entry.angles.now given.entry.rounds.now given.entry.fixed.now corrections) }
    ensures own { OnOk result (corrections ≡ angle_count figure) }
    ensures misclosures { OnOk result (misclosures.new ≡ misclosures_of figure given.entry.angles.now given.entry.fixed.now) }
    ensures numerators { OnOk result (numerators.new ≡ numerators_of figure given.entry.angles.now given.entry.fixed.now) }
    ensures few_misclosures { OnOk result (Within most_limit misclosures.new) }
    ensures few_numerators { OnOk result (Within most_numerator numerators.new) }
{
    check_lengths(&[corrections], &[numerators.len()])?;
    let mut rounded = [0; MOST_ANGLES];
    let mut corrected = [0; MOST_ANGLES];
    let mut corrected_rounds = [0; MOST_ANGLES];
    let mut rests = [0; MOST_CONDITIONS];
    let rounded = &mut rounded[..numerators.len()];
    let corrected = &mut corrected[..numerators.len()];
    let corrected_rounds = &mut corrected_rounds[..numerators.len()];
    let rests = &mut rests[..misclosures.len()];
    let mut room = FirstRoom {
        misclosures,
        numerators,
        rounded,
        corrected,
        corrected_rounds,
        rests,
    };
    first_pass_of(figure, given, &mut room)
}
