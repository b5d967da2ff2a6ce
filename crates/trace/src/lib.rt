// A trace's sizes and cells: refusals 8 and 9 of the services that take one.
#![tactic(auto)]

ghost use Rattle.std.specs.Prelude.{◌≡◌, length, get_or};
ghost use Rattle.meaning.specs.Three.{greatest};
ghost use Rattle.meaning.specs.Refusal.{first_of, ground8_cells, grounds9};
ghost use Rattle.refusals.specs.Refused.{refused};

use refusals::Refusal;

// No trace has more instants, and no filled trace more columns.
const MOST_INSTANTS: u64 = 32;

pub const MOST_COLUMNS: u16 = 287;

// 8: rows of over `most` cells, no instants or over 32, or another number of cells than the rows have.
#[tactic(auto, unfolding(meaning::specs::Refusal::ground8_cells))]
pub fn wrong_size(most: u16, width: u64, instants: u64, cells: &[u8]) -> bool
    ensures { result ≡ (ground8_cells most width instants cells.now).applies }
{
    if u64::from(most) < width {
        return true;
    }
    if instants == 0 {
        return true;
    }
    if MOST_INSTANTS < instants {
        return true;
    }
    // `u64` has no `From<usize>`.
    cells.len() as u64 != width * instants
}

// 9: a cell over 2. The greatest is found with no exit from the loop, so that the compiler makes vector instructions of it.
#[tactic(auto, using(crate::proofs::Highest::refused_high, crate::proofs::Highest::passed_low))]
pub fn cells_refusal(cells: &[u8]) -> Result<(), Refusal>
    ensures { refused result ≡ first_of (grounds9 cells.now) }
{
    if 2 < greatest_cell(cells) {
        return Err(Refusal::WrongCell);
    }
    Ok(())
}

#[tactic(auto, using(meaning::proofs::Bounds::greatest_more), unfolding(meaning::specs::Three::greatest))]
fn greatest_cell(cells: &[u8]) -> u8
    ensures { result ≡ greatest (length cells.now) (λ i. get_or cells.now i 0) }
{
    let mut most: u8 = 0;
    for &cell in cells {
        most = most.max(cell);
    }
    most
}
