// The check of an offered choice: document 02, M-104. Both rules, and number 15.
ghost use Rattle.std.specs.Prelude.{◌≡◌, ◌<◌, pos, ◌+ℤ◌, length};
ghost use Rattle.refusals.specs.Order.{verdict_of};
ghost use Rattle.refusals.specs.Questions.{asked, outside_signed};
ghost use Rattle.refusals.specs.Ranges.{most_limit};
ghost use Rattle.refusals.specs.Table.{choice_row};
ghost use Rattle.figures.specs.Figure.{denominator, angle_count, condition_count};
ghost use Rattle.pass_steps.specs.Premises.{Within, most_summed};
ghost use Rattle.closing.specs.Floor.{floor_quotient, ceiling_quotient};
ghost use Rattle.closing.specs.Premises.{most_numerator};
ghost use Rattle.closing.specs.Rules.{tenths_under, tenths_over, rests_left};
ghost use Rattle.closing.specs.Steps.{some_strays, some_open, each_with};

use crate::directions::{ceiling_quotient, floor_quotient};
use figures::{Figure, MOST_CONDITIONS};
use pass_steps::condition_sums;
use refusals::Refusal;

// Number 15, from the numerators and misclosures of an accepted first pass.
pub(crate) fn check_choice(
    figure: Figure,
    divisor: u32,
    misclosures: &[i32],
    numerators: &[i32],
    offered: &[i32],
) -> Result<(), Refusal>
    requires divisor_value { divisor ≡ denominator figure }
    requires misclosures_len { length misclosures.now ≡ condition_count figure }
    requires numerators_len { length numerators.now ≡ angle_count figure }
    requires offered_len { length offered.now ≡ angle_count figure }
    requires within { Within most_limit misclosures.now }
    requires within_2 { Within most_numerator numerators.now }
    ensures { result
        ≡ verdict_of (choice_row (tenths_under figure numerators.now) (tenths_over figure numerators.now)
        offered.now (rests_left figure misclosures.now offered.now)) }
{
    if some_strays(divisor, numerators, offered) || some_open(figure, misclosures, offered) {
        Err(Refusal::ChoiceDoesNotClose)
    } else {
        Ok(())
    }
}

// The first rule is broken: at some angle it is not the whole tenth just below or just above.
fn some_strays(divisor: u32, numerators: &[i32], offered: &[i32]) -> bool
    requires divisor_nonzero { 0 < divisor }
    requires offered_len { length offered.now ≡ length numerators.now }
    ensures { result ≡ some_strays divisor numerators.now offered.now }
{
    // By index: `any` over two lists of signed numbers zipped did not prove.
    for (i, tenth) in offered.iter().enumerate() {
        if strays(numerators[i], divisor, *tenth) {
            return true;
        }
    }
    false
}

fn strays(numerator: i32, divisor: u32, offered: i32) -> bool
    requires { 0 < divisor }
    ensures { result ≡ asked (outside_signed (floor_quotient numerator divisor) (ceiling_quotient numerator divisor) offered) }
{
    let below = floor_quotient(i64::from(numerator), divisor);
    let above = ceiling_quotient(numerator, divisor);
    let tenth = i64::from(offered);
    tenth < below || above < tenth
}

// The second rule is broken: at some condition the misclosure with the corrections in it is not 0.
fn some_open(figure: Figure, misclosures: &[i32], offered: &[i32]) -> bool
    requires misclosures_len { length misclosures.now ≡ condition_count figure }
    requires offered_len { length offered.now ≡ angle_count figure }
    requires within { Within most_summed offered.now }
    ensures { result ≡ some_open (rests_left figure misclosures.now offered.now) }
{
    let mut sums = [0; MOST_CONDITIONS];
    let sums = &mut sums[..misclosures.len()];
    condition_sums(figure, offered, sums);
    some_left(misclosures, sums)
}

fn some_left(misclosures: &[i32], sums: &[i32]) -> bool
    requires sums_len { length sums.now ≡ length misclosures.now }
    ensures { result ≡ some_open (each_with misclosures.now sums.now) }
{
    // By index, as above.
    for (j, misclosure) in misclosures.iter().enumerate() {
        if is_open(*misclosure, sums[j]) {
            return true;
        }
    }
    false
}

fn is_open(misclosure: i32, sum: i32) -> bool
    ensures { result ≡ asked (outside_signed (pos 0) (pos 0) (misclosure +ℤ sum)) }
{
    i64::from(misclosure) + i64::from(sum) != 0
}
