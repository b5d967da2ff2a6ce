// Writing the tree of a record into a buffer, step by step; a step that writes a part goes down to that part, the record number falling.
// A tree that does not end within the 255 records of the buffer has no number after it. The number to write goes beside the buffer: what a
// step's record has for children is told by numbers too.
ghost use Rattle.std.specs.Prelude.{◌≡◌, true, ◌≤◌};
ghost use Rattle.meaning.specs.Record.{kind_at, most_records};
ghost use Rattle.expand.specs.Expanding.{Expandable, bytes_at, size_at, step_bytes, step_count, fits, Wrote};
ghost use Rattle.expand.specs.Rows.{step_meant};

use crate::steps;
use crate::steps::{Core, Step};
use records::layout;

// Writes the tree of record r from number `from` on, and gives the number after its last record.
#[cycle(write_step_write_tree)]
pub fn write_tree(
    records: &[u8],
    r: usize,
    buffer: &mut [u8; layout::MOST_BYTES],
    from: usize,
) -> Option<usize>
    requires { Expandable records.now r × (from ≤ most_records) }
    ensures { Wrote (bytes_at records.now r from) from (size_at records.now r) buffer.old result buffer.new }
{
    let mut under = from;
    let mut n = from;
    for &step in steps::row_of(layout::kind_of(records, r)) {
        let next = write_step(records, r, step, under, buffer, n)?;
        under = steps::next_under(step, under, n);
        n = next;
    }
    Some(n)
}

// One step of record r: a part's tree, or a record of a core kind, which takes the trees before it for its children.
#[cycle(write_step_write_tree)]
#[tactic(auto, unfolding(crate::specs::Steps::step_from, crate::specs::Steps::step_size))]
fn write_step(
    records: &[u8],
    r: usize,
    step: Step,
    under: usize,
    buffer: &mut [u8; layout::MOST_BYTES],
    n: usize,
) -> Option<usize>
    requires { Expandable records.now r × (fits (kind_at records.now r) (step_meant step) ≡ true) × (under ≤ most_records) × (n ≤ most_records) }
    ensures { Wrote (step_bytes records.now r (step_meant step) under n) n (step_count records.now r (step_meant step)) buffer.old result buffer.new }
{
    match step {
        Step::PartA => return write_tree(records, layout::field_a(records, r), buffer, n),
        Step::PartB => return write_tree(records, layout::field_b(records, r), buffer, n),
        _ => {}
    }
    // One record as number n, unless the buffer is full. One match on all kinds of step is slower: its jump is mispredicted where kinds vary.
    if layout::MOST_RECORDS <= n {
        return None;
    }
    let (kind, number) = match step {
        Step::Leaf(kind) | Step::One(kind) | Step::Two(kind) => (kind, 0),
        _ => (Core::Atom, layout::field_a(records, r)),
    };
    let (a, b) = match step {
        Step::Two(_) => (under.saturating_sub(1), n.saturating_sub(1)),
        Step::One(_) => (n.saturating_sub(1), 0),
        _ => (number, 0),
    };
    layout::put_record(buffer, n, kind.into(), a, b);
    Some(n + 1)
}
