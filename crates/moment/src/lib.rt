#![tactic(auto)]
// Moments of a clock, in nanoseconds. A type of its own, so that no moment is compared with a log position.
ghost use Rattle.std.specs.Prelude.{◌≡◌};
ghost use Rattle.moment.specs.Moment.{is_before, in_range, since_of};

// The last moment.
pub const LAST: u64 = 9223372036854775807;

#[derive(Clone, Copy, PartialEq, Eq, PartialOrd, Ord)]
pub struct Moment(pub u64);

impl Moment {
    pub fn from_nanos(nanos: u64) -> Moment
        ensures { result.0 ≡ nanos }
    {
        Moment(nanos)
    }

    pub fn as_nanos(self) -> u64
        ensures { result ≡ self.0 }
    {
        self.0
    }

    pub fn is_before(self, other: Moment) -> bool
        ensures { result ≡ is_before self other }
    {
        self < other
    }

    // Whether a step may be given it.
    pub fn is_in_range(self) -> bool
        ensures { result ≡ in_range self }
    {
        (1..=LAST).contains(&self.0)
    }

    // The nanoseconds from another moment to this one, 0 where that lies ahead.
    pub fn since(self, other: Moment) -> u64
        ensures { result ≡ since_of self other }
    {
        self.0.saturating_sub(other.0)
    }
}
