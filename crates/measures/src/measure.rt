// The interface of a measure.
ghost use Rattle.std.specs.Prelude.{◌≡◌, ℕ, ◌≤◌};
ghost use prog.Memory.{size};
ghost use denote.Param.{layout};
ghost use Rattle.feeder.specs.Measure.{Meaning, Lawful};

use feeder::Figures;

/// What is added up over the faults of a feeder.
///
/// Its meaning is all that sweeps, trials and logs know of a measure: nothing, the joining of two values, the effect of one
/// fault, and the extra part by which a near effect passes the far one. The functions answer just this.
pub trait Measure {
    type Value: Copy;

    ghost meaning: { Self → Meaning Self.Value };

    /// The value of no fault. That a value takes at most 64 bytes lets a question work in a local table of 1,024.
    fn nothing(&self) -> Self::Value
        ensures value { result ≡ (meaning self.now).nothing }
        ensures small { size (layout Self.Value.row) ≤ 64 };

    /// The value of both together, in either order.
    fn join(&self, a: Self::Value, b: Self::Value) -> Self::Value
        ensures { result ≡ (meaning self.now).join a b };

    /// The effect of a fault on section `k` on a node that is out for `time` minutes; `s` is the switching time.
    fn effect(&self, k: u16, figures: &Figures, s: u16, time: u16) -> Self::Value
        ensures { result ≡ (meaning self.now).effect k figures.now s time };

    /// What a near effect of a fault on section `k` has beyond the far one.
    fn extra(&self, k: u16, figures: &Figures, s: u16) -> Self::Value
        ensures { result ≡ (meaning self.now).extra k figures.now s };

    ghost lawful: { (x : Self) → Lawful (meaning x) };
}
