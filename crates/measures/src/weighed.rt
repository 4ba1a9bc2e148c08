// The interface of a measure that can be weighed by load or customers.
ghost use Rattle.std.specs.Prelude.{◌≡◌, ℕ};
ghost use Rattle.feeder.specs.Weighed.{Weighs};

use crate::measure::Measure;

/// A measure whose values are whole numbers: the joining is their sum, capped, and no effect passes 1,008,000,000.
pub trait Weighed: Measure {
    ghost number: { Self → Self.Value → ℕ };

    fn number(&self, v: Self::Value) -> u64
        ensures value { result ≡ number self.now v }
        ensures tied { Weighs (Self.Measure.meaning self.now) (number self.now) };

    ghost weighs: { (x : Self) → Weighs (Self.Measure.meaning x) (number x) };
}
