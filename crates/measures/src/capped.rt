// The values of measures that add up.
ghost use Rattle.std.specs.Prelude.{◌^◌, ◌<◌};

/// A whole number that a sum caps at 2^64 - 1.
#[derive(Clone, Copy, PartialEq, Eq, Debug)]
pub struct Capped {
    pub value: u64,
    ghost fits: { value < 2 ^ 64 },
}
