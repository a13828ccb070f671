// Way: where following the stored parents of a park file leads from a node. The file is read, the ends of its links and its
// parents are taken apart into local arrays, and the way is followed there. Nothing is written.
#![tactic(auto)]

mod steps;

ghost use Rattle.std.specs.Prelude.{◌≡◌, ℕ, List};
ghost use Rattle.park.specs.ParkFile.{park_in};
ghost use Rattle.park.specs.Reading.{file_in};
ghost use Rattle.way.specs.Way.{park_way, way_answer};

use answers::WayOfNode;
use answers::refusal::Refusal;
use measure::{LINKS, NODES};
use reader::ReadFile;
use reader::apart::{take_links, take_state};

// The way of a node of a file that was read.
#[tactic(auto, using(park::proofs::ParkLaws::lent))]
fn way_in(read: &ReadFile<'_>, node: u16) -> WayOfNode
    ensures { let s : List ℕ = read.now.file.now in result ≡ park_way (park_in (file_in s)) (file_in s).state node }
{
    let ReadFile { file, head } = *read;
    let n = usize::from(head.nodes);
    let l = usize::from(head.links);
    let mut lows = [0u16; LINKS];
    let mut highs = [0u16; LINKS];
    let mut parents = [0u16; NODES];
    take_links(file, head.links, &mut lows, &mut highs, &mut []);
    take_state(file, head.nodes, head.links, &mut [], &mut parents, &mut []);
    let tree = steps::Tree {
        root: head.root,
        lows: &lows[..l],
        highs: &highs[..l],
        parents: &parents[..n],
    };
    tree.way_of(node)
}

// The way of a node, by its number, by the links and the stored parents of a file; or the refusal of the file, or that it
// has no such node.
pub fn way(file: &[u8], node: u16) -> Result<WayOfNode, Refusal>
    ensures { result ≡ way_answer file.now node }
{
    let read = ReadFile::new(file)?;
    if node < 1 || read.head.nodes < node {
        return Err(Refusal::Node);
    }
    Ok(way_in(&read, node))
}
