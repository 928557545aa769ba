//! Division that rounds down.

ghost use Rattle.std.specs.Prelude.{◌≡◌, ◌<◌, pos};
ghost use Rattle.std.specs.Int.{int_div_euclid};

/// `sum / count`, rounded down.
pub(crate) fn floor_quotient(sum: i64, count: u32) -> i64
    requires { 0 < count }
    ensures { result ≡ int_div_euclid sum (pos count) }
{
    sum.div_euclid(i64::from(count))
}
