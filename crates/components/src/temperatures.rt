// The temperatures of the component table, in the order of its columns, and the columns of each.
ghost use Rattle.std.specs.Prelude.{◌≡◌};
ghost use Rattle.components.specs.Table.{summation, superior, inferior};
ghost use Rattle.components.specs.Temperatures.{heat_place, summation_place};

// A temperature of combustion, °C.
#[derive(Clone, Copy, PartialEq, Eq)]
pub enum Combustion {
    At25,
    At20,
    At15,
    At0,
}

impl Combustion {
    pub fn superior(self) -> usize
        ensures { result ≡ superior (heat_place self) }
    {
        4 + 2 * self as usize
    }

    pub fn inferior(self) -> usize
        ensures { result ≡ inferior (heat_place self) }
    {
        5 + 2 * self as usize
    }
}

// A temperature of metering, °C.
#[derive(Clone, Copy, PartialEq, Eq)]
pub enum Metering {
    At0,
    At15,
    At20,
}

impl Metering {
    pub fn summation(self) -> usize
        ensures { result ≡ summation (summation_place self) }
    {
        1 + self as usize
    }
}
