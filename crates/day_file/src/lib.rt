// The day file of document 02, W-206: its blocks, walked by offsets or one after the other. Every list of bytes, and every offset, gets its
// answer or the one reason of its refusal.
#![tactic(auto)]

ghost use Rattle.std.specs.Prelude.{◌≡◌};
ghost use Rattle.day_file.specs.Walk.{place_of, next_of, block_of};
ghost use Rattle.day_file.specs.Answers.{place_meaning, next_meaning, block_meaning};

mod blocks;

pub use blocks::{Blocks, DayFile};
use records::Refusal;

// Where the first block begins.
pub const FIRST_BLOCK: usize = 5;

// What stands at an offset: a block, as a part of the file, with the offset after it; or the end of the file.
#[derive(Clone, Copy)]
pub enum Place<'a> {
    Block { bytes: &'a [u8], next: usize },
    End,
}

// The offset after a block, or the end of the file.
#[derive(Clone, Copy)]
pub enum Next {
    Offset(usize),
    End,
}

// What stands at an offset, or 21, 22 or 23.
pub fn place_at(file: &[u8], offset: usize) -> Result<Place<'_>, Refusal>
    ensures { place_meaning result ≡ place_of file.now offset }
{
    blocks::check_head(file)?;
    if offset < FIRST_BLOCK || file.len() < offset {
        return Err(Refusal::OffsetOutside);
    }
    if offset == file.len() {
        return Ok(Place::End);
    }
    let (bytes, _) = blocks::split_block(&file[offset..]).ok_or(Refusal::BlockCut)?;
    Ok(Place::Block {
        bytes,
        next: offset + 2 + bytes.len(),
    })
}

// The walk: the offset after the block at an offset, which is FIRST_BLOCK for the first; the end at the file's length; or 21, 22 or 23.
pub fn next_offset(file: &[u8], offset: usize) -> Result<Next, Refusal>
    ensures { next_meaning result ≡ next_of file.now offset }
{
    match place_at(file, offset)? {
        Place::Block { next, .. } => Ok(Next::Offset(next)),
        Place::End => Ok(Next::End),
    }
}

// The bytes of the block at an offset, as a part of the file; none where `next_offset` gives no block.
pub fn block_at(file: &[u8], offset: usize) -> Option<&[u8]>
    ensures { block_meaning result ≡ block_of file.now offset }
{
    match place_at(file, offset) {
        Ok(Place::Block { bytes, .. }) => Some(bytes),
        _ => None,
    }
}
