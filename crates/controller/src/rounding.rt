// The rounding that closes, for C: document 02, M-104.
ghost use Rattle.pass_rules.specs.Promises.{first_given};
ghost use Rattle.controller.specs.Promises.{ClosingPassPromise};

use crate::answer::answered;
use closing::closing_corrections;
use pass_rules::FirstInput;

pub fn bienguloc_closing(
    code: u32,
    n: u32,
    limit: u32,
    angles: &[u32],
    rounds: &[u8],
    fixed: &[u32],
    corrections: &mut [i32],
) -> u32
    ensures { ClosingPassPromise
        (first_given code n limit angles.now rounds.now fixed.now)
        corrections.old result corrections.new }
{
    let given = FirstInput {
        limit,
        angles,
        rounds,
        fixed,
    };
    answered(closing_corrections(code, n, given, corrections))
}
