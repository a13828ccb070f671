// A file field by field, in document 01's order. Each step is a definition of the room park, in specs/Reading.antt. A place
// is in bytes from the file's start.
ghost use Rattle.std.specs.Prelude.{◌≡◌, ◌≤◌, ◌<◌, List, ℕ};
ghost use Rattle.park.specs.Layout.{far_place, tag_of};
ghost use Rattle.park.specs.Reading.{nodes_in, root_in, link_count, head_of, field_at, bounds_of, head_in, links_in, group_in, state_in, end_in, verdict_of};

use answers::Head;
use answers::refusal::Refusal;
use park::layout::{self, Field};

// A file, and the nodes, the root and the links that it says, which are read once.
#[derive(Clone, Copy)]
pub(crate) struct Fields<'a> {
    pub file: &'a [u8],
    pub head: Head,
    ghost nodes: { head.nodes ≡ nodes_in file.now },
    ghost root: { head.root ≡ root_in file.now },
    ghost links: { head.links ≡ link_count file.now },
}

impl<'a> Fields<'a> {
    // Reads the three numbers; what stands behind them is read by `verdict`.
    pub(crate) fn new(file: &'a [u8]) -> Fields<'a>
        ensures { result.file.now ≡ file.now }
    {
        let head = Head {
            nodes: layout::nodes_in(file),
            root: layout::root_in(file),
            links: layout::link_count(file),
        };
        Fields { file, head }
    }

    // The fields in order, and nothing behind them: the first refusal, or none.
    pub(crate) fn verdict(&self) -> Result<(), Refusal>
        ensures { result ≡ verdict_of self.now.file.now }
    {
        self.first()?;
        self.links()?;
        self.group()?;
        self.state()?;
        self.end()
    }

    // Field 1: n and the root.
    fn first(&self) -> Result<(), Refusal>
        ensures { result ≡ head_in self.now.file.now }
    {
        field(self.file, 0, Field::Nodes, 1, 4, 4)?;
        bounds(self.head.nodes, self.head.root)
    }

    // Field 2: the links.
    fn links(&self) -> Result<(), Refusal>
        ensures { result ≡ links_in self.now.file.now }
    {
        let most = layout::LINK * measure::LINKS;
        field(
            self.file,
            layout::LINKS_AT,
            Field::Links,
            layout::LINK,
            0,
            most,
        )?;
        crate::records::records(self.file, self.head.nodes, self.head.links)
    }

    // Field 3: the group.
    fn group(&self) -> Result<(), Refusal>
        ensures { result ≡ group_in self.now.file.now }
    {
        let at = layout::group_at(self.head.links);
        field(self.file, at, Field::Group, 1, layout::GROUP, layout::GROUP)?;
        if crate::bits::bits(self.file, at + layout::HEAD, self.head.nodes) {
            return Ok(());
        }
        Err(Refusal::Bit(at))
    }

    // Field 4: the state, a record for each node.
    fn state(&self) -> Result<(), Refusal>
        ensures { result ≡ state_in self.now.file.now }
    {
        let length = layout::CELL * usize::from(self.head.nodes);
        field(
            self.file,
            layout::state_at(self.head.links),
            Field::State,
            1,
            length,
            length,
        )
    }

    // Nothing behind the last field.
    fn end(&self) -> Result<(), Refusal>
        ensures { result ≡ end_in self.now.file.now }
    {
        let at = layout::end_at(self.head.nodes, self.head.links);
        if at < self.file.len() {
            return Err(Refusal::After(at));
        }
        Ok(())
    }
}

// Head complete, tag, length, body complete: the field due at a place, whose length is a multiple of `step` bytes from
// `low` to `high` bytes.
fn field(
    file: &[u8],
    at: usize,
    due: Field,
    step: usize,
    low: usize,
    high: usize,
) -> Result<(), Refusal>
    requires { (at ≤ far_place) × (0 < step) }
    ensures { result ≡ field_at file.now at (tag_of due) step low high }
{
    if file.len() < at + layout::HEAD {
        return Err(Refusal::Short(at));
    }
    let tag = due.tag();
    if wire::bytes::byte_at(file, at) != tag {
        return Err(Refusal::Tag(at));
    }
    let length = wire::number_at(file, at + 1);
    if length % step != 0 || length < low || high < length {
        return Err(Refusal::Length(at));
    }
    if file.len() < at + layout::HEAD + length {
        return Err(Refusal::Short(at));
    }
    Ok(())
}

// The tests of n and of the root.
fn bounds(nodes: u16, root: u16) -> Result<(), Refusal>
    ensures { result ≡ bounds_of nodes root }
{
    if nodes < 1 || measure::NODES < usize::from(nodes) || root < 1 || nodes < root {
        return Err(Refusal::Bounds);
    }
    Ok(())
}
