// Big-endian numbers of 16 and 32 bits in lent bytes. Every call is total: a byte outside the slice is read as 0, and
// one that would be written there is dropped. Places are in bytes from the slice's start.
#![tactic(auto)]

pub mod bytes;

ghost use Rattle.std.specs.Prelude.{◌≡◌, ◌<◌};
ghost use Rattle.std.proofs.lemmas.List.Edits.{sets};
ghost use Rattle.wire.specs.Big.{big, bytes_of};

use bytes::{bytes_at, put_array};

// The 16-bit number at a place, in bytes.
#[tactic(auto, unfolding(crate::specs::Big::big))]
pub fn big16(s: &[u8], place: usize) -> u16
    ensures { result ≡ big 2 s.now place }
{
    u16::from_be_bytes(bytes_at(s, place))
}

// The 32-bit number at a place, in bytes.
#[tactic(auto, unfolding(crate::specs::Big::big))]
pub fn big32(s: &[u8], place: usize) -> u32
    ensures { result ≡ big 4 s.now place }
{
    u32::from_be_bytes(bytes_at(s, place))
}

// The 16-bit number at a place, in bytes, as a count.
pub fn number_at(s: &[u8], place: usize) -> usize
    ensures { (result ≡ big 2 s.now place) × (result < 65536) }
{
    usize::from(big16(s, place))
}

// Puts a 16-bit number at a place, in bytes.
#[tactic(auto, unfolding(crate::specs::Big::bytes_of))]
pub fn put16(s: &mut [u8], place: usize, x: u16)
    ensures { s.new ≡ sets s.old place (bytes_of 2 x) }
{
    put_array(s, place, &u16::to_be_bytes(x));
}

// Puts a 32-bit number at a place, in bytes.
#[tactic(auto, unfolding(crate::specs::Big::bytes_of))]
pub fn put32(s: &mut [u8], place: usize, x: u32)
    ensures { s.new ≡ sets s.old place (bytes_of 4 x) }
{
    put_array(s, place, &u32::to_be_bytes(x));
}
