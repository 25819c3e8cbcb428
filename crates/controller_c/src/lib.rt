// The operations of `controller` under their names for C: each calls the one of its name, and promises what it does.
#![tactic(auto)]

ghost use Rattle.controller.specs.Promises.{LookPromise, read_lent, ReadPromise, text_lent, ReportPromise, ClosingPassPromise, answer_by, FirstPassPromise, sums_lent, SecondPassPromise, WritePromise};
ghost use Rattle.sheet_rules.specs.Lent.{slices};
ghost use Rattle.pass_rules.specs.Promises.{first_given, first_lent, second_given, second_lent};
ghost use Rattle.std.specs.Prelude.{◌≡◌};
ghost use Rattle.closing.specs.Promises.{check_rows};
ghost use Rattle.pass_rules.specs.SecondPass.{sine_entries};
ghost use Rattle.sheet_rules.specs.Sheet.{values_from};

#[unsafe(no_mangle)]
pub extern "C" fn bienguloc_look(sheet: &[u8], head: &mut [u32]) -> u32
    ensures { LookPromise sheet.now head.old result head.new }
{
    controller::bienguloc_look(sheet, head)
}

#[unsafe(no_mangle)]
pub extern "C" fn bienguloc_read(
    sheet: &[u8],
    head: &mut [u32],
    angles: &mut [u32],
    rounds: &mut [u8],
    fixed: &mut [u32],
    log_sines: &mut [u32],
    differences: &mut [i32],
    log_sides: &mut [u32],
) -> u32
    ensures { ReadPromise sheet.now
        (read_lent head.old
        (slices angles.old rounds.old fixed.old log_sines.old differences.old
        log_sides.old))
        result
        (read_lent head.new
        (slices angles.new rounds.new fixed.new log_sines.new differences.new
        log_sides.new)) }
{
    controller::bienguloc_read(
        sheet,
        head,
        angles,
        rounds,
        fixed,
        log_sines,
        differences,
        log_sides,
    )
}

#[unsafe(no_mangle)]
pub extern "C" fn bienguloc_report(sheet: &[u8], text: &mut [u8], written: &mut [u64]) -> u32
    ensures { ReportPromise sheet.now
        (text_lent text.old written.old) result (text_lent text.new written.new) }
{
    controller::bienguloc_report(sheet, text, written)
}

#[unsafe(no_mangle)]
pub extern "C" fn bienguloc_closing(
    code: u32,
    n: u32,
    limit: u32,
    angles: &[u32],
    rounds: &[u8],
    fixed: &[u32],
    corrections: &mut [i32],
) -> u32
    ensures { ClosingPassPromise
        (first_given code n limit angles.now rounds.now fixed.now)
        corrections.old result corrections.new }
{
    controller::bienguloc_closing(code, n, limit, angles, rounds, fixed, corrections)
}

#[unsafe(no_mangle)]
pub extern "C" fn bienguloc_check_closing(
    code: u32,
    n: u32,
    limit: u32,
    angles: &[u32],
    rounds: &[u8],
    fixed: &[u32],
    offered: &[i32],
) -> u32
    ensures { result
        ≡ answer_by (check_rows (first_given code n limit angles.now rounds.now fixed.now)
        offered.now) }
{
    controller::bienguloc_check_closing(code, n, limit, angles, rounds, fixed, offered)
}

#[unsafe(no_mangle)]
pub extern "C" fn bienguloc_first_pass(
    code: u32,
    n: u32,
    limit: u32,
    angles: &[u32],
    rounds: &[u8],
    fixed: &[u32],
    misclosures: &mut [i32],
    numerators: &mut [i32],
    rounded: &mut [i32],
    corrected: &mut [u32],
    corrected_rounds: &mut [u8],
    rests: &mut [i32],
) -> u32
    ensures { FirstPassPromise
        (first_given code n limit angles.now rounds.now fixed.now)
        (first_lent misclosures.old numerators.old rounded.old
        corrected.old corrected_rounds.old rests.old)
        result
        (first_lent misclosures.new numerators.new rounded.new
        corrected.new corrected_rounds.new rests.new) }
{
    controller::bienguloc_first_pass(
        code,
        n,
        limit,
        angles,
        rounds,
        fixed,
        misclosures,
        numerators,
        rounded,
        corrected,
        corrected_rounds,
        rests,
    )
}

#[unsafe(no_mangle)]
pub extern "C" fn bienguloc_second_pass(
    code: u32,
    n: u32,
    tolerance: u32,
    angles: &[u32],
    rounds: &[u8],
    log_sines: &[u32],
    differences: &[i32],
    log_sides: &[u32],
    sine_misclosures: &mut [i64],
    divisor: &mut [u64],
    reduced: &mut [i64],
    side_reduced: &mut [i64],
    numerators_high: &mut [i64],
    numerators_low: &mut [u64],
    rounded: &mut [i32],
    adjusted: &mut [u32],
    adjusted_rounds: &mut [u8],
    rests: &mut [i32],
) -> u32
    ensures { SecondPassPromise
        (second_given code n tolerance angles.now rounds.now
        (sine_entries log_sines.now differences.now log_sides.now))
        (sums_lent sine_misclosures.old divisor.old
        (second_lent reduced.old side_reduced.old numerators_high.old numerators_low.old
        rounded.old adjusted.old adjusted_rounds.old rests.old))
        result
        (sums_lent sine_misclosures.new divisor.new
        (second_lent reduced.new side_reduced.new numerators_high.new numerators_low.new
        rounded.new adjusted.new adjusted_rounds.new rests.new)) }
{
    controller::bienguloc_second_pass(
        code,
        n,
        tolerance,
        angles,
        rounds,
        log_sines,
        differences,
        log_sides,
        sine_misclosures,
        divisor,
        reduced,
        side_reduced,
        numerators_high,
        numerators_low,
        rounded,
        adjusted,
        adjusted_rounds,
        rests,
    )
}

#[unsafe(no_mangle)]
pub extern "C" fn bienguloc_write(
    kind: u32,
    code: u32,
    n: u32,
    limit_or_tolerance: u32,
    angles: &[u32],
    rounds: &[u8],
    fixed: &[u32],
    log_sines: &[u32],
    differences: &[i32],
    log_sides: &[u32],
    sheet: &mut [u8],
) -> u32
    ensures { WritePromise kind code n
        (values_from limit_or_tolerance angles.now rounds.now fixed.now
        log_sines.now differences.now log_sides.now)
        sheet.old result sheet.new }
{
    controller::bienguloc_write(
        kind,
        code,
        n,
        limit_or_tolerance,
        angles,
        rounds,
        fixed,
        log_sines,
        differences,
        log_sides,
        sheet,
    )
}
