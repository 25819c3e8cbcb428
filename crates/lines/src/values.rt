// A number of a lent slice, and another past its end.
ghost use Rattle.std.specs.Prelude.{◌≡◌, get_or};
ghost use Rattle.wide.specs.Wide.{value_of};
ghost use Rattle.lines.specs.Lines.{wide_numbers};

use wide::Wide;

pub(crate) fn number_at<T: Copy>(values: &[T], i: usize, past: T) -> T
    ensures { result ≡ get_or values.now i past }
{
    values.get(i).copied().unwrap_or(past)
}

// A number of two words, each of which has its slice, as the caller from C lends them.
pub(crate) fn wide_at(high: &[i64], low: &[u64], i: usize) -> Wide
    ensures { value_of result ≡ wide_numbers high.now low.now i }
{
    wide_words::wide_from(number_at(high, i, 0), number_at(low, i, 0))
}
