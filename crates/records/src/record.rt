// The bytes that a record is read from: its head, its entries, and a record that is accepted.
ghost use Rattle.std.specs.Prelude.{◌≡◌, ◌≤◌, length};
ghost use Rattle.records.specs.Order.{first_of};
ghost use Rattle.records.specs.Refusals.{number_in};
ghost use Rattle.records.specs.Format.{head_length, record_length, count_in, lines_in, fractions_in};
ghost use Rattle.records.specs.Conditions.{content_order, record_order};

use super::entries::Entries;
use super::pair::Pair;
use super::refusal::Refusal;
use super::{conditions, format, scan};

// Bytes that hold a head.
#[derive(Clone, Copy)]
pub struct Head<'a> {
    pub bytes: &'a [u8],
    pub ghost long: { head_length ≤ length bytes.now },
}

impl Head<'_> {
    ghost use Rattle.std.specs.Prelude.{◌≡◌, ◌≤◌};
    ghost use Rattle.records.specs.Format.{has_mark, version_in, combustion_in, metering_in, count_in};

    pub fn has_mark(&self) -> bool
        ensures { result ≡ has_mark self.now.bytes.now }
    {
        matches!(self.bytes, [b'G', b'C', b'R', ..])
    }

    pub fn version(&self) -> u16
        ensures { result ≡ version_in self.now.bytes.now }
    {
        format::number_2(self.bytes, 3)
    }

    pub fn pair(&self) -> Pair
        ensures { result ≡ record { combustion = combustion_in self.now.bytes.now; metering = metering_in self.now.bytes.now } }
    {
        Pair {
            combustion: self.bytes[5],
            metering: self.bytes[6],
        }
    }

    // How many entries the record has.
    pub fn count(&self) -> usize
        ensures { (result ≡ count_in self.now.bytes.now) × (result ≤ 255) }
    {
        usize::from(self.bytes[7])
    }
}

// Bytes that hold the entries they count.
#[derive(Clone, Copy)]
pub struct RecordEntries<'a> {
    pub bytes: &'a [u8],
    pub ghost few: { count_in bytes.now ≤ 255 },
    pub ghost whole: { record_length (count_in bytes.now) ≤ length bytes.now },
}

impl Entries for RecordEntries<'_> {
    ghost use Rattle.std.specs.Prelude.{◌≡◌};
    ghost use Rattle.records.specs.Format.{lines_in, fractions_in};
    ghost use Rattle.records.specs.Counted.{same_in, few_in};

    ghost lines = { λ e. lines_in e.bytes.now };

    ghost fractions = { λ e. fractions_in e.bytes.now };

    ghost same = { λ e. same_in e.bytes.now };

    ghost few = { λ e. few_in e.bytes.now e.few };

    fn len(&self) -> usize {
        Head { bytes: self.bytes }.count()
    }

    fn line(&self, k: usize) -> u8 {
        self.bytes[format::record_length(k)]
    }

    fn fraction(&self, k: usize) -> u32 {
        format::number_4(self.bytes, format::record_length(k) + 1)
    }
}

// 7, 8, 10 to 12 and 9. It stays a call: in line, a record that its head refuses would save the registers of its loops too.
#[inline(never)]
fn check_entries(entries: &RecordEntries) -> Result<(), Refusal>
    ensures { number_in result ≡ first_of (content_order (lines_in entries.now.bytes.now) (fractions_in entries.now.bytes.now)) }
{
    scan::check_content(entries)
}

// The bytes of an accepted record.
#[derive(Clone, Copy)]
pub struct Record<'a> {
    pub bytes: &'a [u8],
    pub ghost accepted: { first_of (record_order bytes.now) ≡ 0 },
}

impl<'a> Record<'a> {
    ghost use Rattle.std.specs.Prelude.{◌≡◌, IfOk};
    ghost use Rattle.records.specs.Order.{first_of};
    ghost use Rattle.records.specs.Refusals.{number_in};
    ghost use Rattle.records.specs.Format.{combustion_in, metering_in};
    ghost use Rattle.records.specs.Conditions.{record_order};

    // The record in a list of bytes, or why it is refused: the first that holds of 1 to 8, 10 to 12 and 9.
    pub fn new(bytes: &'a [u8]) -> Result<Self, Refusal>
        ensures number { number_in result ≡ first_of (record_order bytes.now) }
        ensures same { IfOk result (λ r. r.bytes.now ≡ bytes.now) }
    {
        conditions::check_head(bytes)?;
        check_entries(&RecordEntries { bytes })?;
        Ok(Self { bytes })
    }

    pub fn pair(&self) -> Pair
        ensures { result ≡ record { combustion = combustion_in self.now.bytes.now; metering = metering_in self.now.bytes.now } }
    {
        self.head().pair()
    }

    pub fn head(&self) -> Head<'a>
        ensures { result.bytes.now ≡ self.now.bytes.now }
    {
        Head { bytes: self.bytes }
    }

    pub fn entries(&self) -> RecordEntries<'a>
        ensures { result.bytes.now ≡ self.now.bytes.now }
    {
        RecordEntries { bytes: self.bytes }
    }
}
