// How a capped number is made, and the capped sum.
ghost use Rattle.std.specs.Prelude.{◌≡◌};
ghost use Rattle.measures.specs.Capped.{cap, sum};

use crate::capped::Capped;

/// The number itself: 64 bits never pass the cap.
impl From<u64> for Capped {
    ghost from_gives = { λ n v. v ≡ cap n };

    fn from(n: u64) -> Capped {
        Capped { value: n }
    }
}

impl Capped {
    /// The sum of two numbers, or 2^64 - 1 where it would pass that.
    pub fn plus(self, other: Capped) -> Capped
        ensures { result ≡ sum self other }
    {
        Capped {
            value: self.value.saturating_add(other.value),
        }
    }
}
