// The contents of a file's field 3, the bits of the group, as the definition of the room park has it, in specs/Reading.antt. A
// place is in bytes from the file's start.
ghost use Rattle.std.specs.Prelude.{◌≡◌, ◌^◌, min};
ghost use Rattle.park.specs.Layout.{group_size};
ghost use Rattle.park.specs.Reading.{bits_clear};

use park::layout;

// How many different values a byte has that holds the bits of the next nodes, n nodes being left.
fn values(n: usize) -> u16
    ensures { result ≡ 2 ^ min 8 n }
{
    1 << n.min(8)
}

// The contents of field 3: whether the bytes of the group have no bit above n, from the place of the first on.
#[tactic(auto, using(crate::proofs::BitsLaws::byte_out, crate::proofs::BitsLaws::byte_on, crate::proofs::BitsLaws::byte_none))]
pub(crate) fn bits(file: &[u8], from: usize, nodes: u16) -> bool
    ensures { result ≡ bits_clear file.now from nodes group_size }
{
    let group: [u8; layout::GROUP] = wire::bytes::bytes_at(file, from);
    for (i, byte) in group.iter().enumerate() {
        let left = usize::from(nodes).saturating_sub(8 * i);
        if values(left) <= u16::from(*byte) {
            return false;
        }
    }
    true
}
