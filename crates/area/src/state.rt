// A state put into the bytes of a file, as stored, and a file put into a lent area with another state: it is copied there once,
// and the records of its state are written over in the area itself. Every call is total: a byte outside the lent area is
// dropped. Places are in bytes.
ghost use Rattle.std.specs.Prelude.{◌≡◌, ℕ, List, length};
ghost use Rattle.std.proofs.lemmas.List.Edits.{sets};
ghost use Rattle.park.specs.Layout.{first_cell};
ghost use Rattle.park.specs.ParkFile.{state_bytes};
ghost use Rattle.table.specs.Lent.{cells_in};
ghost use Rattle.area.specs.Area.{room_for, area_with, cell_bytes};

use crate::put_file;
use answers::refusal::Refusal;
use park::layout::{CELL, first_cell};
use table::{Table, shortest};

// Puts one node's distance, parent and mark at a place.
#[tactic(auto, unfolding(wire::specs::Big::bytes_of))]
fn put_cell(area: &mut [u8], at: usize, dist: u32, parent: u16, mark: u8)
    ensures { area.new ≡ sets area.old at (cell_bytes dist parent mark) }
{
    let mut record = [0; CELL];
    wire::put32(&mut record, 0, dist);
    wire::put16(&mut record, 4, parent);
    record[6] = mark;
    wire::bytes::put_array(area, at, &record);
}

// Puts a table as the records of the state from a place on, as many as its shortest slice has.
pub fn put_cells(area: &mut [u8], from: usize, table: &Table<'_>)
    ensures { area.new ≡ sets area.old from (state_bytes (cells_in table.now)) }
{
    let Table {
        dists,
        parents,
        marks,
    } = *table;
    let mut at = from;
    for i in 0..shortest(dists.len(), parents.len(), marks.len()) {
        if area.len() <= at {
            return;
        }
        put_cell(area, at, dists[i], parents[i], marks[i]);
        at += CELL;
    }
}

// Puts the state back into a file of as many links as are said.
fn put_state(file: &mut [u8], links: u16, table: &Table<'_>)
    ensures { file.new ≡ sets file.old (first_cell links) (state_bytes (cells_in table.now)) }
{
    put_cells(file, first_cell(links), table)
}

// Puts a file of as many links as are said into the lent area from a place on, with a table for its
// state. Or answers that there is no room for it; bytes before and after stay.
pub fn put_with_state(
    file: &[u8],
    links: u16,
    table: &Table<'_>,
    area: &mut [u8],
    place: usize,
) -> Result<(), Refusal>
    ensures put { let old : List ℕ = area.old in
        let bytes : List ℕ = file.now in
        let new : List ℕ = sets bytes (first_cell links) (state_bytes (cells_in table.now)) in
        (result ≡ room_for (length bytes) (length old) place) × (area.new ≡ area_with result new place old) }
{
    put_file(file, area, place)?;
    let end = place + file.len();
    put_state(&mut area[place..end], links, table);
    Ok(())
}
