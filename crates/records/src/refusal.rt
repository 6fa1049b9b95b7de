// Why a call is refused: the conditions of documents 01 and 02, by their numbers.
ghost use Rattle.std.specs.Prelude.{◌≡◌};
ghost use Rattle.records.specs.Refusals.{number};

use std::fmt;

// The first twelve are those of a record, 13 to 18 those of a meter's calls; 19 is the writer's and a day file's, 20 the writer's, and 21 to
// 23 are a day file's.
#[derive(Clone, Copy, Debug, PartialEq, Eq)]
pub enum Refusal {
    TooShort = 1,
    MarkDiffers,
    VersionDiffers,
    PairNotPermitted,
    CountOutside,
    LengthDiffers,
    LineOutOfOrder,
    FractionZero,
    SumOutside,
    MethaneLow,
    AboveLimit,
    WaterHigh,
    StreamAbove,
    PairDiffers,
    VolumeAbove,
    NoAnalysis,
    TotalPasses,
    TotalZero,
    ListsDiffer,
    RoomShort,
    NoDayFile,
    OffsetOutside,
    BlockCut,
}

impl Refusal {
    pub fn number(self) -> u8
        ensures { result ≡ number self }
    {
        self as u8
    }
}

impl fmt::Display for Refusal {
    fn fmt<W: fmt::Write>(&self, f: &mut fmt::Formatter<W>) -> fmt::Result {
        write!(f, "refused {}", self.number())
    }
}
