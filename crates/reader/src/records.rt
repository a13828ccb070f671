// The contents of a file's field 2, the records of the links, as the definitions of the room park have it, in
// specs/Reading.antt. A place is in bytes from the file's start.
ghost use Rattle.std.specs.Prelude.{◌≡◌};
ghost use Rattle.park.specs.Layout.{first_link};
ghost use Rattle.park.specs.Reading.{link_at, links_from};

use crate::numbers::Link;
use answers::refusal::Refusal;
use park::layout;

// The link whose record is at a place; `before` has the two ends of the link before, as one number.
fn link(file: &[u8], nodes: u16, at: usize, before: u32) -> Result<(), Refusal>
    ensures { result ≡ link_at file.now nodes at before }
{
    let link = Link::read(file, at);
    let Link { low, high, cost } = link;
    if low < 1 || high <= low || nodes < high || cost < 1 {
        return Err(Refusal::Ends(at));
    }
    if link.key() <= before {
        return Err(Refusal::Order(at));
    }
    Ok(())
}

// The contents of field 2: the records of so many links, in a park of so many nodes.
pub(crate) fn records(file: &[u8], nodes: u16, links: u16) -> Result<(), Refusal>
    ensures { result ≡ links_from file.now nodes first_link 0 links }
{
    let mut before = 0;
    for i in 0..usize::from(links) {
        let at = layout::FIRST_LINK + layout::LINK * i;
        link(file, nodes, at, before)?;
        before = Link::read(file, at).key();
    }
    Ok(())
}
