// The answers of the meter, as they are printed.
use meter::{Register, StreamTotals};
use properties::quantities::CalorificValue;
use records::Refusal;
use std::fmt;
use std::fmt::{Display, Formatter};

// What a call gives where it is accepted, or its refusal.
#[derive(Drop)]
pub struct Answer<T>(pub Result<T, Refusal>);

impl<T: Display> Display for Answer<T> {
    fn fmt<W: fmt::Write>(&self, f: &mut Formatter<W>) -> fmt::Result {
        match &self.0 {
            Ok(given) => write!(f, "{given}"),
            Err(refusal) => write!(f, "{refusal}"),
        }
    }
}

// Of a call that gives no numbers.
#[derive(Drop)]
pub struct Accepted;

impl Display for Accepted {
    fn fmt<W: fmt::Write>(&self, f: &mut Formatter<W>) -> fmt::Result {
        f.write_str("accepted")
    }
}

// An energy.
#[derive(Drop)]
struct Energy(Register);

impl Display for Energy {
    fn fmt<W: fmt::Write>(&self, f: &mut Formatter<W>) -> fmt::Result {
        write!(f, "{} MJ {} mJ", self.0.whole, self.0.rest)
    }
}

// A mass.
#[derive(Drop)]
struct Mass(Register);

impl Display for Mass {
    fn fmt<W: fmt::Write>(&self, f: &mut Formatter<W>) -> fmt::Result {
        write!(f, "{} kg {} e-11 kg", self.0.whole, self.0.rest)
    }
}

#[derive(Drop)]
pub struct Totals(pub StreamTotals);

impl Display for Totals {
    fn fmt<W: fmt::Write>(&self, f: &mut Formatter<W>) -> fmt::Result {
        let t = self.0;
        write!(f, "{} dm3, superior {}", t.volume, Energy(t.superior))?;
        write!(
            f,
            ", inferior {}, mass {}",
            Energy(t.inferior),
            Mass(t.mass)
        )
    }
}

#[derive(Drop)]
pub struct Mean(pub CalorificValue);

impl Display for Mean {
    fn fmt<W: fmt::Write>(&self, f: &mut Formatter<W>) -> fmt::Result {
        write!(f, "{} J/m3", self.0.value())
    }
}
