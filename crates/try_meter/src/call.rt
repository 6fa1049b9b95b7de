// The calls of the input.
ghost use Rattle.std.specs.Prelude.{◌≡◌, IfSome, length};
ghost use Rattle.std.specs.Iterator.{at_most};

#[derive(Clone, Copy)]
pub enum Kind {
    Fresh,
    Analysis,
    Metering,
    Filling,
    Reading,
}

// Every letter but four reads a stream.
impl From<u8> for Kind {
    ghost use Rattle.try_meter.specs.Calls.{kind_of};

    ghost from_gives = { λ letter kind. kind ≡ kind_of letter };

    fn from(letter: u8) -> Self {
        match letter {
            b'n' => Self::Fresh,
            b'a' => Self::Analysis,
            b'm' => Self::Metering,
            b'f' => Self::Filling,
            _ => Self::Reading,
        }
    }
}

// A call's kind, its stream and its volume, and the bytes of its title and of its record.
#[derive(Clone, Copy)]
pub struct Call<'a> {
    pub kind: Kind,
    pub stream: usize,
    pub volume: u64,
    pub title: &'a [u8],
    pub bytes: &'a [u8],
}

// Every call of the bytes, up to one that they do not hold whole.
#[derive(Drop)]
pub struct Calls<'a>(pub &'a [u8]);

impl<'a> Iterator for Calls<'a> {
    type Item = Call<'a>;

    ghost use Rattle.try_meter.specs.Calls.{IsFirst};

    ghost next_gives = { λ calls call after. IfSome call (λ first. IsFirst calls.0.now first after.0.now) };

    ghost remaining = { λ calls. at_most (length calls.0.now) };

    fn next(&mut self) -> Option<Call<'a>> {
        let (letter, rest) = self.0.split_first()?;
        let (title_length, rest) = rest.split_first_chunk()?;
        let (length, rest) = rest.split_first_chunk()?;
        let (stream, rest) = rest.split_first_chunk()?;
        let (volume, rest) = rest.split_first_chunk()?;
        let (title, rest) = rest.split_at_checked(u16::from_le_bytes(*title_length).into())?;
        let (bytes, rest) = rest.split_at_checked(u16::from_le_bytes(*length).into())?;
        self.0 = rest;
        Some(Call {
            kind: Kind::from(*letter),
            stream: u64::from_le_bytes(*stream) as usize,
            volume: u64::from_le_bytes(*volume),
            title,
            bytes,
        })
    }
}
