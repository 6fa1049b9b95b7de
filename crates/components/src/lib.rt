// The component table of ISO 6976:1995, and sums of fraction times column over a composition.
#![tactic(auto)]

ghost use Rattle.std.specs.Prelude.{◌≡◌, ◌+◌, ◌*◌, ◌^◌, ◌≤◌, ◌<◌, T, nat_abs, pos, ◌+ℤ◌, ◌*ℤ◌};
ghost use Rattle.std.specs.Int.Signed.{non_neg};
ghost use Rattle.components.specs.Table.{entry_of, molar_mass, summation, superior, inferior};
ghost use Rattle.components.specs.Temperatures.{heat_place, summation_place};

mod table;
mod temperatures;

pub use temperatures::{Combustion, Metering};

// The column of the molar mass.
pub const MOLAR_MASS: usize = 0;

// The number of a line, counted from 1, in a column, counted from 0, for whoever goes over the table.
// A line is the standard's number of a component, and a record's byte of it, from which an enum of 55 names would have to be made.
pub fn entry(line: u8, column: usize) -> i32
    requires { (1 ≤ line) × (line ≤ 55) × (column < 12) }
    ensures { result ≡ entry_of line column }
{
    table::row(line)[column]
}

// sum + x * n.
fn add_product(sum: i64, x: u32, n: i32) -> i64
    requires { nat_abs sum + x * nat_abs n < 2 ^ 63 }
    ensures { result ≡ sum +ℤ pos x *ℤ n }
{
    sum + i64::from(x) * i64::from(n)
}

// The same where n is not below 0. For one generic function, a trait of the two sums and an impl for each would be longer than the two.
fn add_unsigned(sum: u64, x: u32, n: i32) -> u64
    requires { T (non_neg n) × (sum + x * nat_abs n < 2 ^ 63) }
    ensures { pos result ≡ pos sum +ℤ pos x *ℤ n }
{
    sum + u64::from(x) * n as u64
}

// Sums of fraction times column: h superior, h inferior and m, which have no number below 0, and s.
#[derive(Clone, Copy, Default)]
pub struct Sums {
    pub superior: u64,
    pub inferior: u64,
    pub mass: u64,
    pub summation: i64,
}

impl Sums {
    // One more entry: h at a combustion temperature, and s at a metering temperature.
    // Both come with each entry: held in `Sums`, every caller would have to be told that an entry leaves them as they were.
    pub fn add(&mut self, line: u8, fraction: u32, combustion: Combustion, metering: Metering)
        requires in_table { (1 ≤ line) × (line ≤ 55) }
        requires room { (self.old.superior < 2 ^ 62) × (self.old.inferior < 2 ^ 62) × (self.old.mass < 2 ^ 62) × (nat_abs self.old.summation < 2 ^ 62) }
        ensures superior { pos self.new.superior ≡ pos self.old.superior +ℤ pos fraction *ℤ entry_of line (superior (heat_place combustion)) }
        ensures inferior { pos self.new.inferior ≡ pos self.old.inferior +ℤ pos fraction *ℤ entry_of line (inferior (heat_place combustion)) }
        ensures mass { pos self.new.mass ≡ pos self.old.mass +ℤ pos fraction *ℤ entry_of line molar_mass }
        ensures summation { self.new.summation ≡ self.old.summation +ℤ pos fraction *ℤ entry_of line (summation (summation_place metering)) }
    {
        let row = table::row(line);
        self.superior = add_unsigned(self.superior, fraction, row[combustion.superior()]);
        self.inferior = add_unsigned(self.inferior, fraction, row[combustion.inferior()]);
        self.mass = add_unsigned(self.mass, fraction, row[MOLAR_MASS]);
        self.summation = add_product(self.summation, fraction, row[metering.summation()]);
    }
}
