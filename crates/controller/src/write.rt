// The writer for C.
ghost use Rattle.sheet_rules.specs.Sheet.{values_from};
ghost use Rattle.controller.specs.Promises.{WritePromise};

use crate::answer::answered;
use sheet_rules::SheetValues;
use sheet_writer::write_sheet;

pub fn bienguloc_write(
    kind: u32,
    code: u32,
    n: u32,
    limit_or_tolerance: u32,
    angles: &[u32],
    rounds: &[u8],
    fixed: &[u32],
    log_sines: &[u32],
    differences: &[i32],
    log_sides: &[u32],
    sheet: &mut [u8],
) -> u32
    ensures { WritePromise kind code n
        (values_from limit_or_tolerance angles.now rounds.now fixed.now
        log_sines.now differences.now log_sides.now)
        sheet.old result sheet.new }
{
    let values = SheetValues {
        angles,
        rounds,
        fixed,
        log_sines,
        differences,
        log_sides,
    };
    answered(write_sheet(kind, code, n, limit_or_tolerance, values, sheet))
}
