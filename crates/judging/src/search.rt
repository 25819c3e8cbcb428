// The lowest place at which a value lies outside its range: document 01, "The lowest place is named".
// Numbers of three types are searched, each by a line of its own: a trait over them would have the same three lines in its impls.
ghost use Rattle.std.specs.Prelude.{◌≡◌, ◌++◌, ◌+◌, ◌<◌, ◌^◌, pos, ◌+ℤ◌, get_or, length, position, IfSome};
ghost use Rattle.std.specs.List.{enumerate_from};
ghost use Rattle.refusals.specs.Questions.{asked, outside, outside_signed};
ghost use Rattle.refusals.specs.Ranges.{least_angle, most_angle};
ghost use Rattle.refusals.specs.Table.{sine_entry_outside};
ghost use Rattle.judging.specs.Searches.{placed, lowest_outside, lowest_signed_outside, results_of, lowest_entry_outside};

use refusals::{
    LEAST_ANGLE, LEAST_DIFFERENCE, LEAST_LOG_SINE, MOST_ANGLE, MOST_DIFFERENCE, MOST_LOG_SINE,
};

fn is_outside(value: u32, least: u32, most: u32) -> bool
    ensures { result ≡ asked (outside least most value) }
{
    value < least || most < value
}

fn is_signed_outside(value: i64, least: i64, most: i64) -> bool
    ensures { result ≡ asked (outside_signed least most value) }
{
    value < least || most < value
}

// Places are counted from 1.
fn place_of(index: Option<usize>) -> Option<usize>
    requires { IfSome index (λ i. i + 1 < 2 ^ 64) }
    ensures { result ≡ placed index }
{
    index.map(|i| i + 1)
}

fn first_outside(values: &[u32], least: u32, most: u32) -> Option<usize>
    ensures first { result ≡ position (λ value. asked (outside least most value)) values.now }
    ensures within { IfSome result (λ i. i < length values.now) }
{
    values
        .iter()
        .position(|value| is_outside(*value, least, most))
}

pub(crate) fn lowest_outside(values: &[u32], least: u32, most: u32) -> Option<usize>
    ensures { result ≡ lowest_outside values.now least most }
{
    place_of(first_outside(values, least, most))
}

fn first_count_outside(values: &[u8], least: u8, most: u8) -> Option<usize>
    ensures first { result ≡ position (λ value. asked (outside least most value)) values.now }
    ensures within { IfSome result (λ i. i < length values.now) }
{
    values.iter().position(|value| is_outside(u32::from(*value), u32::from(least), u32::from(most)))
}

// The same of counts of one byte.
pub(crate) fn lowest_count_outside(values: &[u8], least: u8, most: u8) -> Option<usize>
    ensures { result ≡ lowest_outside values.now least most }
{
    place_of(first_count_outside(values, least, most))
}

fn first_signed_outside(values: &[i32], least: i64, most: i64) -> Option<usize>
    ensures first { result ≡ position (λ value. asked (outside_signed least most value)) values.now }
    ensures within { IfSome result (λ i. i < length values.now) }
{
    values
        .iter()
        .position(|value| is_signed_outside(i64::from(*value), least, most))
}

pub(crate) fn lowest_signed_outside(values: &[i32], least: i64, most: i64) -> Option<usize>
    ensures { result ≡ lowest_signed_outside values.now least most }
{
    place_of(first_signed_outside(values, least, most))
}

// The number of an angle, and 0 past the end.
fn signed_at(values: &[i32], i: usize) -> i32
    ensures { result ≡ get_or values.now i (pos 0) }
{
    values.get(i).copied().unwrap_or(0)
}

// Whether an angle with its correction lies outside the angles' range.
fn is_result_outside(angle: u32, correction: i32) -> bool
    ensures { result ≡ asked (outside_signed (pos least_angle) (pos most_angle) (pos angle +ℤ correction)) }
{
    is_signed_outside(
        i64::from(angle) + i64::from(correction),
        i64::from(LEAST_ANGLE),
        i64::from(MOST_ANGLE),
    )
}

fn first_result_outside(angles: &[u32], corrections: &[i32]) -> Option<usize>
    ensures first { result ≡ position
        (λ angle. asked (outside_signed (pos least_angle) (pos most_angle) (pos angle.1 +ℤ get_or corrections.now angle.0 (pos 0))))
        (enumerate_from 0 angles.now) }
    ensures within { IfSome result (λ i. i < length angles.now) }
{
    angles.iter().enumerate().position(|(i, angle)| is_result_outside(
        *angle,
        signed_at(corrections, i),
    ))
}

pub(crate) fn lowest_result_outside(angles: &[u32], corrections: &[i32]) -> Option<usize>
    ensures { result ≡ lowest_signed_outside (results_of angles.now corrections.now) (pos least_angle) (pos most_angle) }
{
    place_of(first_result_outside(angles, corrections))
}

// Whether the log-sine or the difference of an angle lies outside its range.
fn is_entry_outside(log_sine: u32, difference: i32) -> bool
    ensures { result ≡ asked (sine_entry_outside log_sine difference) }
{
    is_outside(log_sine, LEAST_LOG_SINE, MOST_LOG_SINE)
        || is_signed_outside(
            i64::from(difference),
            i64::from(LEAST_DIFFERENCE),
            i64::from(MOST_DIFFERENCE),
        )
}

// The value at an index of one list and then another, and 0 past both.
fn value_at(first: &[u32], second: &[u32], i: usize) -> u32
    ensures { result ≡ get_or (first.now ++ second.now) i 0 }
{
    match first.get(i) {
        Some(value) => *value,
        None => second.get(i - first.len()).copied().unwrap_or(0),
    }
}

fn is_outside_at(log_sines: &[u32], log_sides: &[u32], differences: &[i32], i: usize) -> bool
    ensures { result ≡ asked
        (sine_entry_outside (get_or (log_sines.now ++ log_sides.now) i 0) (get_or differences.now i (pos 0))) }
{
    is_entry_outside(value_at(log_sines, log_sides, i), signed_at(differences, i))
}

// The known log sides have the places after the angles, and no differences (M-100).
pub(crate) fn lowest_entry_outside(
    log_sines: &[u32],
    log_sides: &[u32],
    differences: &[i32],
) -> Option<usize>
    ensures { result ≡ lowest_entry_outside (log_sines.now ++ log_sides.now) differences.now }
{
    for i in 0..log_sines.len() + log_sides.len() {
        if is_outside_at(log_sines, log_sides, differences, i) {
            return Some(i + 1);
        }
    }
    None
}
