// The numbers in a record's bytes, and contents read from and written into them. Nothing here refuses: a caller has decided.
ghost use Rattle.std.specs.Prelude.{◌≡◌, ◌+◌, ◌≤◌, ◌<◌, length, get_or, replicate};
ghost use Rattle.records.specs.Format.{contents, head_length, entries_at, record_length, number2, number4, has_mark, version_in, combustion_in, metering_in, count_in, lines_in, fractions_in, head_bytes, entry_bytes, entries_bytes, bytes_of, placed};
ghost use Rattle.records.specs.Answers.{padded};

use super::entries::Entries;
use super::pair::Pair;

// The version of a record.
pub const VERSION: u16 = 1;

// The length of the head, from the mark to the entry count.
pub const HEAD_LENGTH: usize = 8;

// Where the entries begin.
const ENTRIES_AT: usize = HEAD_LENGTH;

// The length of a record of n entries, which is where an entry n, counted from 0, would begin.
pub fn record_length(n: usize) -> usize
    requires { n ≤ 255 }
    ensures { result ≡ record_length n }
{
    ENTRIES_AT + 5 * n
}

// The 2-byte number at an offset. Each size has a function, as each type has its `from_le_bytes`.
pub fn number_2(bytes: &[u8], at: usize) -> u16
    requires { at + 2 ≤ length bytes.now }
    ensures { result ≡ number2 bytes.now at }
{
    u16::from_le_bytes([bytes[at], bytes[at + 1]])
}

// The 4-byte number at an offset.
pub fn number_4(bytes: &[u8], at: usize) -> u32
    requires { at + 4 ≤ length bytes.now }
    ensures { result ≡ number4 bytes.now at }
{
    u32::from_le_bytes([bytes[at], bytes[at + 1], bytes[at + 2], bytes[at + 3]])
}

// The entries, at most 55, into two arrays that hold 0.
pub fn read_entries<E: Entries>(entries: &E, lines: &mut [u8; 55], fractions: &mut [u32; 55])
    requires few { length (E.lines entries.now) ≤ 55 }
    requires blank { (lines.old ≡ replicate 55 0) × (fractions.old ≡ replicate 55 0) }
    ensures { (lines.new ≡ padded (E.lines entries.now)) × (fractions.new ≡ padded (E.fractions entries.now)) }
{
    for k in 0..entries.len() {
        lines[k] = entries.line(k);
        fractions[k] = entries.fraction(k);
    }
}

// The bytes of a record before its entries.
fn put_head(out: &mut [u8], pair: Pair, n: u8)
    requires { head_length ≤ length out.old }
    ensures { out.new ≡ placed out.old 0 (head_bytes pair.combustion pair.metering n) }
{
    let [low, high] = VERSION.to_le_bytes();
    let head = [
        b'G',
        b'C',
        b'R',
        low,
        high,
        pair.combustion,
        pair.metering,
        n,
    ];
    out[..HEAD_LENGTH].copy_from_slice(&head);
}

// The 5 bytes of an entry at an offset.
fn put_entry(out: &mut [u8], at: usize, line: u8, fraction: u32)
    requires { at + 5 ≤ length out.old }
    ensures { out.new ≡ placed out.old at (entry_bytes line fraction) }
{
    let [low, second, third, high] = fraction.to_le_bytes();
    out[at..at + 5].copy_from_slice(&[line, low, second, third, high]);
}

// The entries, where they begin.
fn put_entries<E: Entries>(out: &mut [u8], entries: &E)
    requires { record_length (length (E.lines entries.now)) ≤ length out.old }
    ensures { out.new ≡ placed out.old entries_at (entries_bytes (E.lines entries.now) (E.fractions entries.now)) }
{
    for k in 0..entries.len() {
        put_entry(out, record_length(k), entries.line(k), entries.fraction(k));
    }
}

// Contents as a record into the first bytes of a buffer that has room for it.
pub fn put_record<E: Entries>(pair: Pair, entries: &E, out: &mut [u8])
    requires { record_length (length (E.lines entries.now)) ≤ length out.old }
    ensures { out.new ≡ placed out.old 0 (bytes_of (contents pair.combustion pair.metering (E.lines entries.now) (E.fractions entries.now))) }
{
    put_head(out, pair, entries.len() as u8);
    put_entries(out, entries);
}
