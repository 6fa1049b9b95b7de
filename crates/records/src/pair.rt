// The pair of temperatures of a composition.
ghost use Rattle.std.specs.Prelude.{◌≡◌};
ghost use Rattle.records.specs.Conditions.{permitted};

// The combustion and the metering temperature, in °C.
#[derive(Clone, Copy, Debug, PartialEq, Eq)]
pub struct Pair {
    pub combustion: u8,
    pub metering: u8,
}

impl Pair {
    // The pair is one of the six permitted.
    pub fn is_permitted(self) -> bool
        ensures { result ≡ permitted self.combustion self.metering }
    {
        matches!(
            (self.combustion, self.metering),
            (15, 15) | (0, 0) | (15, 0) | (25, 0) | (20, 20) | (25, 20)
        )
    }
}
