// The blocks of a day file, one after the other.
ghost use Rattle.std.specs.Prelude.{◌≡◌, cond, IfOk, length, drop};
ghost use Rattle.records.specs.Order.{first_of};
ghost use Rattle.records.specs.Refusals.{number_in};
ghost use Rattle.day_file.specs.Format.{first_block, no_day_file, file_order, blocks_of};
ghost use Rattle.day_file.specs.Answers.{split_meaning, front_of};

use super::FIRST_BLOCK;
use records::Refusal;

// The version of a day file.
const VERSION: u16 = 1;

// 21.
pub fn check_head(file: &[u8]) -> Result<(), Refusal>
    ensures { number_in result ≡ cond (no_day_file file.now) 21 0 }
{
    if file.len() < FIRST_BLOCK
        || !matches!(file, [b'G', b'D', b'F', ..])
        || records::number_2(file, 3) != VERSION
    {
        return Err(Refusal::NoDayFile);
    }
    Ok(())
}

// The block at the front of bytes, and the bytes after it; none where no whole block stands there.
pub fn split_block(bytes: &[u8]) -> Option<(&[u8], &[u8])>
    ensures { split_meaning result ≡ front_of bytes.now }
{
    let (length, rest) = bytes.split_first_chunk()?;
    rest.split_at_checked(u16::from_le_bytes(*length).into())
}

// The whole blocks at the front of bytes, each as a part of them.
#[derive(Drop)]
pub struct Blocks<'a> {
    rest: &'a [u8],
}

impl<'a> Iterator for Blocks<'a> {
    type Item = &'a [u8];

    ghost use Rattle.std.specs.Iterator.{YieldsFirstRef, item_count};
    ghost use Rattle.day_file.specs.Format.{split_all};

    ghost next_gives = { YieldsFirstRef (λ s. (split_all s.rest.now).blocks) };

    ghost remaining = { item_count (λ s. (split_all s.rest.now).blocks) };

    fn next(&mut self) -> Option<&'a [u8]> {
        let (block, rest) = split_block(self.rest)?;
        self.rest = rest;
        Some(block)
    }
}

// A day file that neither 21 nor 23 refuses, and how many blocks it has.
#[derive(Clone, Copy)]
pub struct DayFile<'a> {
    pub file: &'a [u8],
    pub count: usize,
    pub ghost accepted: { first_of (file_order file.now) ≡ 0 },
    pub ghost counted: { count ≡ length (blocks_of file.now) },
}

impl<'a> DayFile<'a> {
    // The day file in a list of bytes, or 21 or 23.
    pub fn new(file: &'a [u8]) -> Result<Self, Refusal>
        ensures number { number_in result ≡ first_of (file_order file.now) }
        ensures same { IfOk result (λ d. d.file.now ≡ file.now) }
    {
        check_head(file)?;
        let mut rest = &file[FIRST_BLOCK..];
        let mut count = 0;
        while let Some((_, after)) = split_block(rest) {
            rest = after;
            count += 1;
        }
        if !rest.is_empty() {
            return Err(Refusal::BlockCut);
        }
        Ok(Self { file, count })
    }

    // Its blocks, in order.
    pub fn blocks(&self) -> Blocks<'a>
        ensures { result.rest.now ≡ drop first_block self.now.file.now }
    {
        Blocks {
            rest: &self.file[FIRST_BLOCK..],
        }
    }
}
