// The refusals of records: those of a field, of a record, the first of all; and in how many places each record is the child, counted
// in the same pass.
ghost use Rattle.std.specs.Prelude.{◌≡◌, [], ◌∷◌, pred, min, ◌+◌, ◌<◌, ◌≤◌, length};
ghost use Rattle.meaning.specs.Run.{each};
ghost use Rattle.meaning.specs.Record.{count, most_records};
ghost use Rattle.meaning.specs.Refusal.{first_of, ground, ground1, ground7, record_grounds, tree_grounds};
ghost use Rattle.shapes.specs.Uses.{use_meant, language_meant};
ghost use Rattle.refusals.specs.Refused.{refused};
ghost use Rattle.checks.specs.Places.{Places, FieldTaken, Taken, sooner, fields_grounds};

use records::layout;
use refusals::Refusal;
use shapes::{Language, Sort, Use};

// In how many places each record is the child, a byte each: 0, 1, or 2 for more than one.
type Counts = [u8; layout::MOST_RECORDS];

// The records, the language, the atoms and the counts stay parameters of the functions below: a struct that borrows them is no plainer,
// since the clauses would name each of them through it.

// ---- the length
// 1: no records, a part of one, or over 255.
#[tactic(auto, unfolding(meaning::specs::Refusal::ground1))]
fn wrong_length(s: &[u8]) -> bool
    ensures { result ≡ (ground1 s.now).applies }
{
    s.is_empty() || s.len() % layout::RECORD_SIZE != 0 || layout::MOST_BYTES < s.len()
}

// ---- one field
// One place more, up to two.
fn one_more(count: u8) -> u8
    ensures { result ≡ min 2 (count + 1) }
{
    count.min(1) + 1
}

// The first of 3 to 6 that applies to a field of record r, which is there for `held` and has v in it. If none does, its child is counted.
#[tactic(auto, unfolding(crate::specs::Places::field_grounds, meaning::specs::Refusal::of_first, meaning::specs::Refusal::stray, meaning::specs::Refusal::late, meaning::specs::Refusal::beyond, meaning::specs::Refusal::misfit, meaning::specs::Record::names))]
fn field_refusal(
    s: &[u8],
    atoms: u64,
    counts: &mut Counts,
    r: usize,
    held: Use,
    v: usize,
) -> Result<(), Refusal>
    requires { (r < count s.now) × (count s.now ≤ most_records) × (length counts.old ≡ most_records) }
    ensures { FieldTaken s.now atoms r (use_meant held) v counts.old counts.new result }
{
    match held {
        // 3: an unused field that isn't zero.
        Use::Unused if v != 0 => Err(Refusal::NotZero),
        // 5: an atom number that is too large. The library has no `From` that makes a usize a u64.
        Use::AtomNumber if atoms <= v as u64 => Err(Refusal::NoSuchAtom),
        Use::Child(sort) => {
            // 4: a child that isn't earlier.
            if r <= v {
                return Err(Refusal::LateChild);
            }
            // 6: a child of the wrong sort.
            if shapes::sort_of(layout::kind_of(s, v)) != sort {
                return Err(Refusal::WrongSort);
            }
            counts[v] = one_more(counts[v]);
            Ok(())
        }
        _ => Ok(()),
    }
}

// ---- one record
// Of two refusals the one with the lesser number; each case makes its answer anew, so that in a record without a refusal nothing is moved.
#[tactic(auto, using(crate::proofs::Order::of_two))]
fn sooner(x: Result<(), Refusal>, y: Result<(), Refusal>) -> Result<(), Refusal>
    ensures { refused result ≡ sooner (refused x) (refused y) }
{
    match (x, y) {
        (Ok(()), Ok(())) => Ok(()),
        (Err(p), Err(q)) if u8::from(q) < u8::from(p) => Err(q),
        (Err(p), _) => Err(p),
        (_, Err(q)) => Err(q),
    }
}

// The first of 3 to 6 that applies to a field of record r. If none does, its children are counted.
fn fields_refusal(s: &[u8], atoms: u64, counts: &mut Counts, r: usize) -> Result<(), Refusal>
    requires { (r < count s.now) × (count s.now ≤ most_records) × Places s.now r counts.old }
    ensures { Taken (fields_grounds s.now atoms r) s.now (r + 1) counts.new result }
{
    // The kind is read here once more and both uses are asked for at once: then the compiled code has one jump by the kind, which is faster.
    let kind = layout::kind_of(s, r);
    let held_a = shapes::use_a(kind);
    let held_b = shapes::use_b(kind);
    let a = layout::field_a(s, r);
    let first = field_refusal(s, atoms, counts, r, held_a, a);
    let b = layout::field_b(s, r);
    let second = field_refusal(s, atoms, counts, r, held_b, b);
    sooner(first, second)
}

// The first of 2 to 6 that applies to record r. If none does, its children are counted.
fn record_refusal(
    s: &[u8],
    language: Language,
    atoms: u64,
    counts: &mut Counts,
    r: usize,
) -> Result<(), Refusal>
    requires { (r < count s.now) × (count s.now ≤ most_records) × Places s.now r counts.old }
    ensures { Taken (record_grounds (language_meant language) s.now atoms r) s.now (r + 1) counts.new result }
{
    let kind = layout::kind_of(s, r);
    if !shapes::takes(language, kind) {
        return Err(Refusal::UnknownKind);
    }
    if layout::zero_at(s, r) != 0 {
        return Err(Refusal::NotZero);
    }
    fields_refusal(s, atoms, counts, r)
}

// ---- all records
// The first of 2 to 6 that applies to a record. If none does, the counts say in how many places each record is the child.
fn records_refusal(
    s: &[u8],
    language: Language,
    atoms: u64,
    counts: &mut Counts,
) -> Result<(), Refusal>
    requires { (count s.now ≤ most_records) × Places s.now 0 counts.old }
    ensures { Taken (each (count s.now) (record_grounds (language_meant language) s.now atoms)) s.now (count s.now) counts.new result }
{
    for r in 0..layout::record_count(s) {
        record_refusal(s, language, atoms, counts, r)?;
    }
    Ok(())
}

// 7: a record before the last isn't the child of one place.
fn places_refusal(s: &[u8], counts: &Counts) -> Result<(), Refusal>
    requires { (0 < count s.now) × (count s.now ≤ most_records) × Places s.now (count s.now) counts.now }
    ensures { refused result ≡ first_of (each (pred (count s.now)) (λ q. ground7 s.now q ∷ [])) }
{
    let last = layout::record_count(s) - 1;
    if counts[..last].iter().any(|count| *count != 1) {
        return Err(Refusal::NotATree);
    }
    Ok(())
}

// ---- the records as a tree
fn tree_refusal(s: &[u8], language: Language, atoms: u64) -> Result<(), Refusal>
    requires { (0 < count s.now) × (count s.now ≤ most_records) }
    ensures { refused result ≡ first_of (tree_grounds (language_meant language) s.now atoms) }
{
    let mut counts = [0; layout::MOST_RECORDS];
    records_refusal(s, language, atoms, &mut counts)?;
    let last = layout::record_count(s) - 1;
    match shapes::sort_of(layout::kind_of(s, last)) {
        Sort::Formula => places_refusal(s, &counts),
        Sort::Path => Err(Refusal::WrongSort),
    }
}

// ---- what every service asks of a formula
// 1; then 8, as the service itself found; then those of the records.
#[tactic(auto, using(meaning::proofs::Accepted::ground1_fails), unfolding(meaning::specs::Refusal::of_first, meaning::specs::Refusal::ground1))]
pub fn formula_refusal(
    s: &[u8],
    language: Language,
    atoms: u64,
    wrong_size: bool,
) -> Result<(), Refusal>
    ensures { refused result ≡ first_of (ground1 s.now ∷ ground 8 wrong_size ∷ tree_grounds (language_meant language) s.now atoms) }
{
    if wrong_length(s) {
        return Err(Refusal::WrongLength);
    }
    if wrong_size {
        return Err(Refusal::WrongSize);
    }
    tree_refusal(s, language, atoms)
}
