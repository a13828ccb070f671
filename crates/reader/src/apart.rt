// Taking a file apart into lent slices of plain numbers: a slice for each part of a link, one for each part of a node's state,
// and the group in 64-bit words. Every call is total: a byte outside the file is read as 0, and what a slice has no room for is
// dropped, so that an empty slice takes nothing. State is taken as stored, not tidied. Places are in bytes.
ghost use Rattle.std.specs.Prelude.{◌≡◌, ℕ, ◌+◌, List, length};
ghost use Rattle.std.proofs.lemmas.List.Edits.{sets};
ghost use Rattle.rule.specs.Round.{Link, Cell};
ghost use Rattle.table.specs.Slices.{lows_of, highs_of, costs_of, dists_of, parents_of, marks_of};
ghost use Rattle.park.specs.Layout.{head_size, first_link, group_at, first_cell};
ghost use Rattle.park.specs.Reading.{links_read, cells_read};
ghost use Rattle.reader.specs.Words.{column, little};

use crate::numbers;
use park::layout;
use wire::bytes::put_at;

// A word of the group, in bytes.
const WORD: usize = 8;

// Takes so many links apart: their lower ends, their higher ends and their costs, in cost units.
pub fn take_links(file: &[u8], links: u16, lows: &mut [u16], highs: &mut [u16], costs: &mut [u16])
    ensures taken { let ls : List Link = links_read file.now first_link links in
        (lows.new ≡ sets lows.old 0 (lows_of ls))
        × (highs.new ≡ sets highs.old 0 (highs_of ls))
        × (costs.new ≡ sets costs.old 0 (costs_of ls)) }
{
    for i in 0..usize::from(links) {
        let at = layout::FIRST_LINK + layout::LINK * i;
        let link = numbers::Link::read(file, at);
        put_at(lows, i, link.low);
        put_at(highs, i, link.high);
        put_at(costs, i, link.cost);
    }
}

// Takes the state of so many nodes apart, behind so many links: their distances, in cost units, their parents and their marks.
// It ends where no slice has room.
pub fn take_state(
    file: &[u8],
    nodes: u16,
    links: u16,
    dists: &mut [u32],
    parents: &mut [u16],
    marks: &mut [u8],
)
    ensures taken { let t : List Cell = cells_read file.now (first_cell links) nodes in
        (dists.new ≡ sets dists.old 0 (dists_of t))
        × (parents.new ≡ sets parents.old 0 (parents_of t))
        × (marks.new ≡ sets marks.old 0 (marks_of t)) }
{
    let first = layout::first_cell(links);
    let room = dists.len().max(parents.len()).max(marks.len());
    for i in 0..usize::from(nodes).min(room) {
        let cell = numbers::Cell::read(file, first + layout::CELL * i);
        put_at(dists, i, cell.dist);
        put_at(parents, i, cell.parent);
        put_at(marks, i, cell.mark);
    }
}

// Takes the group apart into words, as many as the slice has room for, behind so many links.
#[tactic(auto, using(crate::proofs::FillLaws::column_is))]
pub fn take_group(file: &[u8], links: u16, words: &mut [u64])
    ensures { let word : ℕ → ℕ = little 8 file.now in
        words.new ≡ column word (group_at links + head_size) 8 (length words.old) }
{
    let first = layout::group_at(links) + layout::HEAD;
    for (i, word) in words.iter_mut().enumerate() {
        *word = numbers::word(file, first + WORD * i);
    }
}

// Takes the park of a file apart, without its state: so many links, and behind them the group.
pub fn take_park(
    file: &[u8],
    links: u16,
    lows: &mut [u16],
    highs: &mut [u16],
    costs: &mut [u16],
    words: &mut [u64],
)
    ensures taken { let ls : List Link = links_read file.now first_link links in
        let word : ℕ → ℕ = little 8 file.now in
        (lows.new ≡ sets lows.old 0 (lows_of ls))
        × (highs.new ≡ sets highs.old 0 (highs_of ls))
        × (costs.new ≡ sets costs.old 0 (costs_of ls))
        × (words.new ≡ column word (group_at links + head_size) 8 (length words.old)) }
{
    take_links(file, links, lows, highs, costs);
    take_group(file, links, words);
}
