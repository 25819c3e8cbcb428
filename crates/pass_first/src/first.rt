// The first pass over lent slices: document 01, "The two passes", and document 02, M-106, for the rounds of each angle.
ghost use Rattle.pass_rules.specs.Promises.{FirstPromise, FirstPromiseOf};
ghost use Rattle.pass_rules.specs.Lent.{first_given_by, first_held, SameFirstSlices};

use crate::corrections::first_corrected;
use crate::misclosures::misclosures_into;
use figures::{Figure, MOST_CONDITIONS, figure_of};
use judging::check_misclosures;
use pass_rules::{FirstInput, FirstRoom, check_first_given, limit_in_force};
use pass_steps::store_rounds;
use refusals::Refusal;

// The first pass of the figure that code and n name. Done, everything lent is as defined; refused, everything lent is as it was.
pub fn first_pass(
    code: u32,
    n: u32,
    given: FirstInput<'_>,
    room: &mut FirstRoom<'_>,
) -> Result<(), Refusal>
    ensures promise { FirstPromise (first_given_by code n given.entry) (first_held room.old) result (first_held room.new) }
    ensures same { SameFirstSlices room.new room.old }
{
    let figure = figure_of(code, n).ok_or(Refusal::NoSuchFigure)?;
    first_pass_of(figure, given, room)
}

// The same of a figure that is named already.
pub fn first_pass_of(
    figure: Figure,
    given: FirstInput<'_>,
    room: &mut FirstRoom<'_>,
) -> Result<(), Refusal>
    ensures promise { FirstPromiseOf figure given.entry.limit given.entry.angles.now given.entry.rounds.now given.entry.fixed.now
        (first_held room.old) result (first_held room.new) }
    ensures same { SameFirstSlices room.new room.old }
{
    check_first_given(figure, given, room.lengths())?;
    let mut w = [0; MOST_CONDITIONS];
    let w = &mut w[..room.misclosures.len()];
    misclosures_into(figure, given.angles, given.fixed, w);
    check_misclosures(w, limit_in_force(given.limit))?;
    let outside = first_corrected(figure, given.angles, w, room);
    store_rounds(outside, given.rounds, room.corrected_rounds);
    outside
}
