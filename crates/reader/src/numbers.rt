// The numbers of one record: a link's ends and cost, a node's distance, parent and mark, and a word of the group. Each record
// is read at once, but for the mark, which is read by itself: who takes the marks alone pays for nothing else. The place of a
// record is in bytes from the file's start; a byte outside the file is 0.
ghost use Rattle.std.specs.Prelude.{◌≡◌, ◌+◌, ◌*◌};
ghost use Rattle.park.specs.Reading.{low_at, high_at, cost_at, key_at, dist_at, parent_at, mark_at};
ghost use Rattle.reader.specs.Words.{little};

use park::layout;
use wire::bytes::{byte_at, bytes_at};

// The mark's place in a node's record, behind the distance and the parent.
const MARK: usize = 6;

// A link as it is stored: its ends by their numbers, and its cost, in cost units.
#[derive(Clone, Copy)]
pub(crate) struct Link {
    pub(crate) low: u16,
    pub(crate) high: u16,
    pub(crate) cost: u16,
}

// A node's state as it is stored: its distance, in cost units, its parent by its number, and its mark.
#[derive(Clone, Copy)]
pub(crate) struct Cell {
    pub(crate) dist: u32,
    pub(crate) parent: u16,
    pub(crate) mark: u8,
}

impl Link {
    // The link whose record is at a place.
    #[tactic(auto, unfolding(wire::specs::Big::big))]
    pub(crate) fn read(file: &[u8], at: usize) -> Link
        ensures low { result.low ≡ low_at file.now at }
        ensures high { result.high ≡ high_at file.now at }
        ensures cost { result.cost ≡ cost_at file.now at }
        ensures key { result.low * 65536 + result.high ≡ key_at file.now at }
    {
        let record: [u8; layout::LINK] = bytes_at(file, at);
        Link {
            low: wire::big16(&record, 0),
            high: wire::big16(&record, 2),
            cost: wire::big16(&record, 4),
        }
    }

    // Both ends as one number, by which links ascend.
    pub(crate) fn key(self) -> u32
        ensures { result ≡ self.low * 65536 + self.high }
    {
        u32::from(self.low) * 65536 + u32::from(self.high)
    }
}

impl Cell {
    // The state of the node whose record is at a place.
    #[tactic(auto, unfolding(wire::specs::Big::big))]
    pub(crate) fn read(file: &[u8], at: usize) -> Cell
        ensures dist { result.dist ≡ dist_at file.now at }
        ensures parent { result.parent ≡ parent_at file.now at }
        ensures mark { result.mark ≡ mark_at file.now at }
    {
        let record: [u8; MARK] = bytes_at(file, at);
        Cell {
            dist: wire::big32(&record, 0),
            parent: wire::big16(&record, 4),
            mark: byte_at(file, at.saturating_add(MARK)),
        }
    }
}

// The eight bytes from a place on as one word, the low byte first.
#[tactic(auto, unfolding(crate::specs::Words::little))]
pub(crate) fn word(file: &[u8], at: usize) -> u64
    ensures { result ≡ little 8 file.now at }
{
    u64::from_le_bytes(bytes_at(file, at))
}
