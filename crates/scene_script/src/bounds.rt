ghost use Rattle.std.specs.Prelude.{◌≡◌, ◌≤◌, ◌<◌, ◌^◌, IfOk};
ghost use Rattle.scene_script.specs.Fields as spec;

use crate::fault::{SceneFault, Which};

/// The limits of a number.
#[derive(Clone, Copy)]
pub(crate) struct Bounds {
    pub(crate) which: Which,
    pub(crate) least: u32,
    pub(crate) most: u64,
}

impl Bounds {
    /// The number, where it is in these limits.
    pub(crate) fn checked(self, value: i64) -> Result<u64, SceneFault>
        requires { self.most < 2 ^ 63 }
        ensures value { result ≡ spec.within self value }
        ensures least { IfOk result (λ n. self.least ≤ n) }
        ensures most { IfOk result (λ n. n ≤ self.most) }
    {
        match u64::try_from(value) {
            Ok(number) if number > self.most => Err(self.limit(value, self.most as i64)),
            Ok(number) if number >= u64::from(self.least) => Ok(number),
            _ => Err(self.limit(value, i64::from(self.least))),
        }
    }

    fn limit(self, found: i64, limit: i64) -> SceneFault
        ensures { result ≡ SceneFault.Limit self.which found limit }
    {
        SceneFault::Limit {
            which: self.which,
            found,
            limit,
        }
    }
}
