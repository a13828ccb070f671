// A file put into a lent area from a place that the caller gives. Sizes and places are in bytes.
#![tactic(auto)]

pub mod state;

ghost use Rattle.std.specs.Prelude.{◌≡◌, ℕ, List, length};
ghost use Rattle.area.specs.Area.{room_for, area_with};

use answers::refusal::Refusal;

// Whether a file of so many bytes has room in an area of so many bytes from a place on.
#[tactic(auto, using(crate::proofs::AreaLaws::room_beyond, crate::proofs::AreaLaws::room_short, crate::proofs::AreaLaws::room_enough))]
pub fn room(size: usize, area: usize, place: usize) -> Result<(), Refusal>
    ensures { result ≡ room_for size area place }
{
    if area < place {
        return Err(Refusal::Room);
    }
    if area - place < size {
        return Err(Refusal::Room);
    }
    Ok(())
}

// Puts a file into the lent area from a place on, or answers that there is no room for it; bytes before and after stay.
pub fn put_file(file: &[u8], area: &mut [u8], place: usize) -> Result<(), Refusal>
    ensures put { let bytes : List ℕ = file.now in
        let old : List ℕ = area.old in
        (result ≡ room_for (length bytes) (length old) place) × (area.new ≡ area_with result bytes place old) }
{
    room(file.len(), area.len(), place)?;
    wire::bytes::put_bytes(&mut area[place..], 0, file);
    Ok(())
}
