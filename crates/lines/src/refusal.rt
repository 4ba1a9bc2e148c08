ghost use Rattle.std.specs.Prelude.{◌≡◌};
ghost use Rattle.lines.specs.Refusals.{number_of};

/// Why a call is refused.
#[derive(Clone, Copy, Debug, PartialEq, Eq)]
pub enum Refusal {
    /// The line has none of the eight forms.
    Line = 8,
    /// A figure to be set is out of its range.
    Range = 5,
    /// No section or node has that number, or no archive was loaded.
    NoSection = 20,
    /// The section bears a switch already.
    Stands = 21,
    /// The section bears no switch.
    Clear = 22,
    /// Section 0 was named for a switch, a flow or a trial.
    Root = 23,
    /// The list to write to is too short.
    Short = 24,
    /// The feeder has no customers.
    NoCustomers = 25,
    /// The archive ends within the name.
    NameCut = 26,
}

impl Refusal {
    /// The number by which the refusal is told.
    // A method and no `From`: it is asked of every kind of fault by this name.
    pub fn number(self) -> u8
        ensures { result ≡ number_of self }
    {
        self as u8
    }
}
