// The two operations of document 02, M-104. They refuse exactly where the first pass does, by the same number and place; the check gives 15
// after that. Both lend two arrays of their own, and these cannot be handed out of a function that makes them: so each has the lines for
// them.
ghost use Rattle.std.specs.Prelude.{◌≡◌};
ghost use Rattle.pass_rules.specs.Lent.{first_given_by};
ghost use Rattle.closing.specs.Promises.{ClosingPromise, ClosingPromiseOf, check_answer, check_answer_of};

use crate::check::check_choice;
use crate::choice::choice_into;
use crate::exact::exact_into;
use figures::{Figure, MOST_ANGLES, MOST_CONDITIONS, figure_of};
use pass_rules::FirstInput;
use refusals::Refusal;

// Of each angle the whole tenth just below or just above its exact first correction, so that every rest is 0. Refused, what is lent is as
// it was.
pub fn closing_corrections(
    code: u32,
    n: u32,
    given: FirstInput<'_>,
    corrections: &mut [i32],
) -> Result<(), Refusal>
    ensures { ClosingPromise (first_given_by code n given.entry) corrections.old result corrections.new }
{
    let figure = figure_of(code, n).ok_or(Refusal::NoSuchFigure)?;
    closing_of(figure, given, corrections)
}

// The same of a figure that is named already.
fn closing_of(figure: Figure, given: FirstInput<'_>, corrections: &mut [i32]) -> Result<(), Refusal>
    ensures { ClosingPromiseOf figure given.entry.limit given.entry.angles.now given.entry.rounds.now given.entry.fixed.now
        corrections.old result corrections.new }
{
    let counts = figure_tables::counts_of(figure);
    let mut misclosures = [0; MOST_CONDITIONS];
    let mut numerators = [0; MOST_ANGLES];
    let misclosures = &mut misclosures[..counts.conditions];
    let numerators = &mut numerators[..counts.angles];
    exact_into(figure, given, corrections.len(), misclosures, numerators)?;
    choice_into(figure, counts.denominator, numerators, corrections);
    Ok(())
}

// Whether an offered choice keeps both rules.
pub fn check_closing(
    code: u32,
    n: u32,
    given: FirstInput<'_>,
    offered: &[i32],
) -> Result<(), Refusal>
    ensures { result ≡ check_answer (first_given_by code n given.entry) offered.now }
{
    let figure = figure_of(code, n).ok_or(Refusal::NoSuchFigure)?;
    check_of(figure, given, offered)
}

fn check_of(figure: Figure, given: FirstInput<'_>, offered: &[i32]) -> Result<(), Refusal>
    ensures { result
        ≡ check_answer_of figure given.entry.limit given.entry.angles.now given.entry.rounds.now given.entry.fixed.now offered.now }
{
    let counts = figure_tables::counts_of(figure);
    let mut misclosures = [0; MOST_CONDITIONS];
    let mut numerators = [0; MOST_ANGLES];
    let misclosures = &mut misclosures[..counts.conditions];
    let numerators = &mut numerators[..counts.angles];
    exact_into(figure, given, offered.len(), misclosures, numerators)?;
    check_choice(figure, counts.denominator, misclosures, numerators, offered)
}
