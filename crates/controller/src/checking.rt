// The check of a rounding that closes, for C: document 02, M-104.
ghost use Rattle.std.specs.Prelude.{◌≡◌};
ghost use Rattle.pass_rules.specs.Promises.{first_given};
ghost use Rattle.closing.specs.Promises.{check_rows};
ghost use Rattle.controller.specs.Promises.{answer_by};

use crate::answer::answered;
use closing::check_closing;
use pass_rules::FirstInput;

pub fn bienguloc_check_closing(
    code: u32,
    n: u32,
    limit: u32,
    angles: &[u32],
    rounds: &[u8],
    fixed: &[u32],
    offered: &[i32],
) -> u32
    ensures { result
        ≡ answer_by (check_rows (first_given code n limit angles.now rounds.now fixed.now)
        offered.now) }
{
    let given = FirstInput {
        limit,
        angles,
        rounds,
        fixed,
    };
    answered(check_closing(code, n, given, offered))
}
