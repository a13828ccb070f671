// Write: a park given by its numbers, as its file in a lent area. The numbers are put into a local array, which is
// checked like any file, so that the refusals are Check's; only then is the lent area touched. Places are in bytes.
#![tactic(auto)]

mod made;

ghost use Rattle.std.specs.Prelude.{◌≡◌, ℕ, List, length};
ghost use Rattle.writer.specs.Made.{file_of};
ghost use Rattle.area.specs.Area.{area_with};
ghost use Rattle.writer.specs.Write.{write_verdict, write_of};

use answers::Written;
use answers::refusal::Refusal;
use park::layout::LARGEST;
use table::Table;

// Writes a park given by its numbers: n nodes, the root, the links (three numbers a link: lower node, higher node, cost
// in cost units), the 32 bytes of the group, and for each node its distance (in cost units), parent and mark.
pub fn write(
    nodes: u16,
    root: u16,
    links: &[u16],
    group: &[u8],
    dists: &[u32],
    parents: &[u16],
    marks: &[u8],
    area: &mut [u8],
    place: usize,
) -> Result<Written, Refusal>
    ensures answered { let file : List ℕ = file_of nodes root links.now group.now
        dists.now parents.now marks.now in
        result ≡ write_of file (length area.old) place }
    ensures written { let file : List ℕ = file_of nodes root links.now group.now
        dists.now parents.now marks.now in
        let old : List ℕ = area.old in
        area.new ≡ area_with (write_verdict file (length old) place) file place old }
{
    let mut made = [0u8; LARGEST];
    let numbers = made::Numbers {
        nodes,
        root,
        links,
        group,
        table: Table {
            dists,
            parents,
            marks,
        },
    };
    let size = numbers.make(&mut made);
    let file = &made[..size];
    reader::read(file)?;
    area::put_file(file, area, place)?;
    Ok(Written(size))
}
