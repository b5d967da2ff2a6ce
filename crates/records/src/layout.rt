// Where a record's parts stand among the bytes, reading and writing: nothing else knows the layout.
ghost use Rattle.std.specs.Prelude.{◌≡◌, ◌+◌, ◌*◌, ◌<◌, length};
ghost use Rattle.std.proofs.lemmas.List.Edits.{sets};
ghost use Rattle.meaning.specs.Record.{record_size, most_records, bytes_of, count, two_bytes, kind_byte, zero_byte, field_a, field_b, kind_at as meant_kind_at};
ghost use Rattle.records.specs.Kinds.{kind_meant};

use crate::kind::Kind;

// The bytes of one record.
pub const RECORD_SIZE: usize = 6;

// No formula has more records.
pub const MOST_RECORDS: usize = 255;

pub const MOST_BYTES: usize = RECORD_SIZE * MOST_RECORDS;

// Nor more atoms.
pub const MOST_ATOMS: u64 = 32;

pub fn record_count(s: &[u8]) -> usize
    ensures { result ≡ count s.now }
{
    s.len() / RECORD_SIZE
}

// What follows asks for a record that is there. That a number is below the count is a fact of the bytes of this one call, which no type
// carries.
pub fn kind_at(s: &[u8], r: usize) -> u8
    requires { r < count s.now }
    ensures { result ≡ kind_byte s.now r }
{
    s[RECORD_SIZE * r]
}

// The kind of record r: each byte has one.
pub fn kind_of(s: &[u8], r: usize) -> Kind
    requires { r < count s.now }
    ensures { kind_meant result ≡ meant_kind_at s.now r }
{
    Kind::from(kind_at(s, r))
}

pub fn zero_at(s: &[u8], r: usize) -> u8
    requires { r < count s.now }
    ensures { result ≡ zero_byte s.now r }
{
    s[RECORD_SIZE * r + 1]
}

pub fn field_a(s: &[u8], r: usize) -> usize
    requires { r < count s.now }
    ensures { result ≡ field_a s.now r }
{
    word_at(s, RECORD_SIZE * r + 2)
}

pub fn field_b(s: &[u8], r: usize) -> usize
    requires { r < count s.now }
    ensures { result ≡ field_b s.now r }
{
    word_at(s, RECORD_SIZE * r + 4)
}

// Two bytes, low byte first. By the numbers, as the definition has them: `from_le_bytes` would first be proved to give these.
fn word_at(s: &[u8], i: usize) -> usize
    requires { i + 1 < length s.now }
    ensures { result ≡ two_bytes s.now i }
{
    usize::from(s[i]) + 256 * usize::from(s[i + 1])
}

// ---- writing
// Writes one record as number n, its zero byte too. Every byte is written for the kind as it is given, so it is no `Kind`; the fields are
// numbers of records and atoms, which callers have as `usize`, so a type of two bytes would be a cast at each call.
pub fn put_record(buffer: &mut [u8; MOST_BYTES], n: usize, kind: u8, a: usize, b: usize)
    requires { (n < most_records) × (a < 65_536) × (b < 65_536) }
    ensures { buffer.new ≡ sets buffer.old (record_size * n) (bytes_of kind a b) }
{
    let at = RECORD_SIZE * n;
    let record = [
        kind,
        0,
        (a % 256) as u8,
        (a / 256) as u8,
        (b % 256) as u8,
        (b / 256) as u8,
    ];
    buffer[at..at + RECORD_SIZE].copy_from_slice(&record);
}
