//! What a slot holds, and the steps on one cell. None of them but `make_free` takes memory.

ghost use Rattle.std.specs.Prelude.{◌≡◌, ◌<◌, ◌≤◌, ◌^◌, ℕ, length, IsTrue, OnOk, IsSome, IfSome, Some, slice_get, slice_set};
ghost use Rattle.std.specs.Option.{option_copied};
ghost use Rattle.ss_fragment.specs.Cells.{is_live, live_row, row_of};
ghost use Rattle.ss_fragment.specs.Invariant.{Grown};

use ss_value::{NoMemory, Row};

/// What a slot holds: nothing, but the next slot in the chain of free ones; or a row, live or dead.
#[derive(Drop)]
pub enum Cell {
    Free(usize),
    Live(Row),
    Dead(Row),
}

/// Whether a slot holds a live row.
#[inline]
pub fn is_live(cells: &[Cell], slot: usize) -> bool
    ensures { result ≡ is_live cells.now slot }
{
    match cells.get(slot) {
        Some(Cell::Live(_)) => true,
        _ => false,
    }
}

/// The row of a live slot, and None for any other.
#[inline]
pub fn live_row(cells: &[Cell], slot: usize) -> Option<&Row>
    ensures { option_copied result ≡ live_row (slice_get cells.now slot) }
{
    match cells.get(slot) {
        Some(Cell::Live(row)) => Some(row),
        _ => None,
    }
}

/// The row of a live or a dead slot, and None for any other.
#[inline]
pub fn any_row(cells: &[Cell], slot: usize) -> Option<&Row>
    ensures { option_copied result ≡ row_of cells.now slot }
{
    match cells.get(slot) {
        Some(Cell::Live(row)) => Some(row),
        Some(Cell::Dead(row)) => Some(row),
        _ => None,
    }
}

/// Makes a slot with a row dead.
pub fn make_dead(cells: &mut Vec<Cell>, slot: usize)
    requires { IsSome (row_of cells.old.items slot) }
    ensures { IfSome (row_of cells.old.items slot) (λ row. cells.new.items ≡ slice_set cells.old.items slot (Cell.Dead row)) }
{
    // A row can't be moved from one variant to another in place: it is taken out, and put in again.
    let row = free_cell(cells, slot, 0);
    cells[slot] = Cell::Dead(row);
}

/// Makes a slot with a row live.
pub fn make_live(cells: &mut Vec<Cell>, slot: usize)
    requires { IsSome (row_of cells.old.items slot) }
    ensures { IfSome (row_of cells.old.items slot) (λ row. cells.new.items ≡ slice_set cells.old.items slot (Cell.Live row)) }
{
    let row = free_cell(cells, slot, 0);
    cells[slot] = Cell::Live(row);
}

/// Puts a row in a live slot and gives back the old one.
pub fn swap_row(cells: &mut Vec<Cell>, slot: usize, row: Row) -> Row
    requires { IsSome (live_row (slice_get cells.old.items slot)) }
    ensures old { live_row (slice_get cells.old.items slot) ≡ Some result }
    ensures new { cells.new.items ≡ slice_set cells.old.items slot (Cell.Live row) }
{
    match std::mem::replace(&mut cells[slot], Cell::Live(row)) {
        Cell::Live(old) => old,
        _ => unreachable!(),
    }
}

/// Frees a slot with a row, in front of the slot `next` of the chain of free ones, and gives back the row.
pub fn free_cell(cells: &mut Vec<Cell>, slot: usize, next: usize) -> Row
    requires { IsSome (row_of cells.old.items slot) }
    ensures old { row_of cells.old.items slot ≡ Some result }
    ensures new { cells.new.items ≡ slice_set cells.old.items slot (Cell.Free next) }
{
    match std::mem::replace(&mut cells[slot], Cell::Free(next)) {
        Cell::Live(row) | Cell::Dead(row) => row,
        _ => unreachable!(),
    }
}

/// Whether a slot is free.
fn is_free(cells: &[Cell], slot: usize) -> bool
    ensures { IsTrue result → (n : ℕ) × (slice_get cells.now slot ≡ Some (Cell.Free n)) }
{
    match cells.get(slot) {
        Some(Cell::Free(_)) => true,
        _ => false,
    }
}

/// The most slots: a number of a slot is given with that of its part, which takes eight times as many numbers.
const MOST_SLOTS: usize = 1 << 56;

/// Makes sure that the head of the chain of free slots is a free slot: a new one where the chain has none. Out of memory
/// changes nothing, and so for the slots, of which there are 2 ^ 56 at most.
pub fn make_free(cells: &mut Vec<Cell>, free: &mut usize, spare: &mut usize) -> Result<(), NoMemory>
    requires spare { spare.old ≤ length cells.old.items }
    requires few { length cells.old.items ≤ 2 ^ 56 }
    ensures few { length cells.new.items ≤ 2 ^ 56 }
    ensures grown { Grown cells.old.items cells.new.items spare.old spare.new }
    ensures ok { OnOk result ((n : ℕ) × (slice_get cells.new.items free.new ≡ Some (Cell.Free n))) }
    ensures some { OnOk result (1 ≤ spare.new) }
{
    // That the chain leads only to free slots is proved nowhere, so its head is tested before it is used.
    if *spare > 0 && is_free(cells.as_slice(), *free) {
        return Ok(());
    }
    let at = cells.len();
    if at >= MOST_SLOTS {
        return Err(NoMemory);
    }
    cells.push(Cell::Free(*free))?;
    *free = at;
    *spare += 1;
    Ok(())
}

/// The slot behind a free one in the chain. Whether it is free is tested when it is used.
fn next_free(cells: &[Cell], slot: usize) -> usize {
    match cells.get(slot) {
        Some(Cell::Free(next)) => *next,
        _ => 0,
    }
}

/// Puts a row in a free slot, and gives the next slot of the chain.
pub fn fill(cells: &mut Vec<Cell>, slot: usize, row: Row) -> usize
    requires { slot < length cells.old.items }
    ensures { cells.new.items ≡ slice_set cells.old.items slot (Cell.Live row) }
{
    let next = next_free(cells.as_slice(), slot);
    cells[slot] = Cell::Live(row);
    next
}
