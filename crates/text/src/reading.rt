// Reading text as a formula's records.
ghost use Rattle.std.specs.Prelude.{◌≡◌, ◌*◌, ◌<◌, ◌≤◌, length};
ghost use Rattle.meaning.specs.Record.{most_records, count};
ghost use Rattle.meaning.specs.Text.{form_in};
ghost use Rattle.meaning.specs.Refusal.{first_of, ground5, atom_grounds, records_grounds};
ghost use Rattle.meaning.specs.Service.{read_answer, read_after};
ghost use Rattle.refusals.specs.Refused.{refused, counted};
ghost use Rattle.text.specs.Texting.{text_grounds, Readable, Came};

use records::kind::Kind;
use records::layout;
use refusals::Refusal;

// The first refusal that applies; or the records of the formula whose text this is, in postorder.
pub fn read_text(text: &[u8], atoms: u64, records: &mut [u8]) -> Result<usize, Refusal>
    ensures refusal { refused result ≡ (read_answer text.now atoms (length records.old)).refusal }
    ensures count { counted result ≡ (read_answer text.now atoms (length records.old)).count }
    ensures bytes { records.new ≡ read_after text.now atoms records.old }
{
    text_refusal(text, atoms)?;
    let n = counting::size_of(text);
    if layout::MOST_RECORDS < n {
        return Err(Refusal::TooLong);
    }
    read_formula(text, n, atoms, records)
}

// Of the text alone: 8, 14, 19.
#[tactic(auto, unfolding(meaning::specs::Refusal::of_first, meaning::specs::Refusal::ground8, meaning::specs::Refusal::ground14_text, meaning::specs::Refusal::ground19))]
fn text_refusal(text: &[u8], atoms: u64) -> Result<(), Refusal>
    ensures { refused result ≡ first_of (text_grounds text.now atoms) }
{
    if layout::MOST_ATOMS < atoms {
        return Err(Refusal::WrongSize);
    }
    if spelling::MOST_TEXT < text.len() {
        return Err(Refusal::TooLong);
    }
    if !parsing::is_formula(text) {
        return Err(Refusal::NotTheForm);
    }
    Ok(())
}

// The n records of a text that is a formula's. Their atoms are looked at once they are written, so they are written into a buffer first.
fn read_formula(text: &[u8], n: usize, atoms: u64, out: &mut [u8]) -> Result<usize, Refusal>
    requires { Readable text.now n }
    ensures { Came (form_in text.now) atoms out.old (refused result) (counted result) out.new }
{
    let mut buffer = [0u8; layout::MOST_BYTES];
    parsing::write_records(text, &mut buffer);
    records_refusal(&buffer[..], n, atoms, out.len())?;
    copying::copy(&buffer[..], layout::RECORD_SIZE * n, out);
    Ok(n)
}

// Of the first n records 5, and 10. The number goes beside the buffer, which has room for more.
fn records_refusal(records: &[u8], n: usize, atoms: u64, room: usize) -> Result<(), Refusal>
    requires { (n ≤ count records.now) × (n ≤ most_records) }
    ensures { refused result ≡ first_of (records_grounds records.now n atoms room) }
{
    atoms_refusal(records, n, atoms)?;
    if room < layout::RECORD_SIZE * n {
        return Err(Refusal::NoRoom);
    }
    Ok(())
}

// 5: an atom that there isn't. A loop, and not `try_for_each` with one for all scans: each scan's invariant names what it passed.
fn atoms_refusal(records: &[u8], n: usize, atoms: u64) -> Result<(), Refusal>
    requires { n ≤ count records.now }
    ensures { refused result ≡ first_of (atom_grounds records.now n atoms) }
{
    for r in 0..n {
        if is_beyond(records, r, atoms) {
            return Err(Refusal::NoSuchAtom);
        }
    }
    Ok(())
}

// Whether record r names an atom beyond the given number of them. `u64` has no `From<usize>`.
#[tactic(auto, unfolding(meaning::specs::Refusal::ground5, meaning::specs::Refusal::beyond, meaning::specs::Record::columns_of, meaning::specs::Record::arguments_of))]
fn is_beyond(records: &[u8], r: usize, atoms: u64) -> bool
    requires { r < count records.now }
    ensures { result ≡ (ground5 records.now atoms r).applies }
{
    match layout::kind_of(records, r) {
        Kind::Atom => atoms <= layout::field_a(records, r) as u64,
        _ => false,
    }
}
