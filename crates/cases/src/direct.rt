// What a pass itself answers, of code 1, and that a refusal leaves what was lent for the results as it was, all 0.
use crate::comparing::holds;
use figures::Figure;
use lines::{FirstWorked, SecondWorked, first_lines, refused_lines, second_lines};
use pass_first::first_pass;
use pass_rules::{FirstInput, FirstRoom, SecondInput, SecondRoom};
use pass_second::second_pass;
use refusals::Refusal;
use report::LONGEST_TEXT;

pub fn first_pass_refuses(limit: u32, angles: [u32; 8], expected: &[u8]) -> bool {
    let given = FirstInput {
        limit,
        angles: &angles,
        rounds: &[1; 8],
        fixed: &[0; 0],
    };
    let mut misclosures = [0; 3];
    let mut numerators = [0; 8];
    let mut rounded = [0; 8];
    let mut corrected = [0; 8];
    let mut corrected_rounds = [0; 8];
    let mut rests = [0; 3];
    let mut room = FirstRoom {
        misclosures: &mut misclosures,
        numerators: &mut numerators,
        rounded: &mut rounded,
        corrected: &mut corrected,
        corrected_rounds: &mut corrected_rounds,
        rests: &mut rests,
    };
    let Err(refusal) = first_pass(1, 0, given, &mut room) else {
        return false;
    };
    reads(refusal, expected)
        && first_unchanged(FirstWorked {
            figure: Figure::Quadrilateral,
            given: &[0; 0],
            rounds: &corrected_rounds,
            numerators: &numerators,
            rounded: &rounded,
            results: &corrected,
            misclosures: &misclosures,
            rests: &rests,
        })
}

// Shown as the program shows results, with no given angles.
fn first_unchanged(worked: FirstWorked<'_>) -> bool {
    let mut text = [0; LONGEST_TEXT];
    let end = first_lines(&mut text, worked);
    holds(
        &text,
        end,
        b"figure 1 0 denominator 8\n\
          1 0 0 0 0 0\n2 0 0 0 0 0\n3 0 0 0 0 0\n4 0 0 0 0 0\n5 0 0 0 0 0\n6 0 0 0 0 0\n7 0 0 0 0 0\n8 0 0 0 0 0\n\
          condition 1 0 0\ncondition 2 0 0\ncondition 3 0 0\n",
    )
}

// With angles of 45° and differences all 0.
pub fn second_pass_refuses(log_sines: [u32; 8], expected: &[u8]) -> bool {
    let given = SecondInput {
        tolerance: 0,
        angles: &[1620000; 8],
        rounds: &[1; 8],
        log_sines: &log_sines,
        differences: &[0; 8],
        log_sides: &[0; 0],
    };
    let mut reduced = [0; 8];
    let mut numerators_high = [0; 8];
    let mut numerators_low = [0; 8];
    let mut rounded = [0; 8];
    let mut adjusted = [0; 8];
    let mut adjusted_rounds = [0; 8];
    let mut rests = [0; 3];
    let mut room = SecondRoom {
        reduced: &mut reduced,
        side_reduced: &mut [0; 0],
        numerators_high: &mut numerators_high,
        numerators_low: &mut numerators_low,
        rounded: &mut rounded,
        adjusted: &mut adjusted,
        adjusted_rounds: &mut adjusted_rounds,
        rests: &mut rests,
    };
    let Err(refusal) = second_pass(1, 0, given, &mut room) else {
        return false;
    };
    reads(refusal, expected)
        && second_unchanged(SecondWorked {
            figure: Figure::Quadrilateral,
            misclosure: 0,
            side_misclosure: 0,
            divisor_high: 0,
            divisor_low: 0,
            given: &[0; 0],
            rounds: &adjusted_rounds,
            reduced: &reduced,
            side_reduced: &[0; 0],
            numerators_high: &numerators_high,
            numerators_low: &numerators_low,
            rounded: &rounded,
            results: &adjusted,
            rests: &rests,
        })
}

// Shown as the program shows results, with no given angles, W or S.
fn second_unchanged(worked: SecondWorked<'_>) -> bool {
    let mut text = [0; LONGEST_TEXT];
    let end = second_lines(&mut text, worked);
    holds(
        &text,
        end,
        b"figure 1 0 W 0 S 0\n\
          1 0 0 0 0 0 0\n2 0 0 0 0 0 0\n3 0 0 0 0 0 0\n4 0 0 0 0 0 0\n5 0 0 0 0 0 0\n6 0 0 0 0 0 0\n7 0 0 0 0 0 0\n8 0 0 0 0 0 0\n\
          condition 1 0\ncondition 2 0\ncondition 3 0\n",
    )
}

// Whether a refusal's line, number and place, is exactly these bytes.
fn reads(refusal: Refusal, expected: &[u8]) -> bool {
    let mut line = [0; LONGEST_TEXT];
    let end = refused_lines(&mut line, refusal);
    holds(&line, end, expected)
}

// Eight angles or log-sines, of which the first stands out.
pub fn eight(first: u32, others: u32) -> [u32; 8] {
    let mut values = [others; 8];
    values[0] = first;
    values
}
