// Where everything stands in a park file, in bytes; no other code names a place of the file. Every call is total: a number
// outside the file is read as 0.
ghost use Rattle.std.specs.Prelude.{◌≡◌};
ghost use Rattle.park.specs.Layout.{tag_of, group_at, state_at, first_cell, end_at};
ghost use Rattle.park.specs.Reading.{nodes_in, root_in, link_count};

use measure::{LINKS, NODES};

// The fields of a park file, in their order.
#[derive(Clone, Copy, Debug, PartialEq, Eq)]
pub enum Field {
    Nodes,
    Links,
    Group,
    State,
}

impl Field {
    // The field's first byte.
    pub fn tag(self) -> u8
        ensures { result ≡ tag_of self }
    {
        match self {
            Field::Nodes => 1,
            Field::Links => 2,
            Field::Group => 3,
            Field::State => 4,
        }
    }
}

// A field's tag and length, in bytes.
pub const HEAD: usize = 3;

// The record of a link, in bytes.
pub const LINK: usize = 6;

// The bits of the group, in bytes.
pub const GROUP: usize = 32;

// The record of a node, in bytes.
pub const CELL: usize = 7;

// The place of the number of nodes.
pub const NODES_AT: usize = HEAD;

// The place of the root's number.
pub const ROOT_AT: usize = NODES_AT + 2;

// The place of field 2, the links.
pub const LINKS_AT: usize = ROOT_AT + 2;

// The place of the first link's record.
pub const FIRST_LINK: usize = LINKS_AT + HEAD;

// The length of the largest file, in bytes.
pub const LARGEST: usize = FIRST_LINK + LINK * LINKS + HEAD + GROUP + HEAD + CELL * NODES;

// The number of nodes that a file says, in nodes.
pub fn nodes_in(file: &[u8]) -> u16
    ensures { result ≡ nodes_in file.now }
{
    wire::big16(file, NODES_AT)
}

// The number of the root that a file says.
pub fn root_in(file: &[u8]) -> u16
    ensures { result ≡ root_in file.now }
{
    wire::big16(file, ROOT_AT)
}

// The number of links that a file's field 2 has room for, in links.
pub fn link_count(file: &[u8]) -> u16
    ensures { result ≡ link_count file.now }
{
    wire::big16(file, LINKS_AT + 1) / LINK as u16
}

// The place of field 3, the group, behind so many links.
pub fn group_at(links: u16) -> usize
    ensures { result ≡ group_at links }
{
    FIRST_LINK + LINK * usize::from(links)
}

// The place of field 4, the state, behind so many links.
pub fn state_at(links: u16) -> usize
    ensures { result ≡ state_at links }
{
    group_at(links) + HEAD + GROUP
}

// The place of the first node's record, behind so many links.
pub fn first_cell(links: u16) -> usize
    ensures { result ≡ first_cell links }
{
    state_at(links) + HEAD
}

// The end of a file of so many nodes and links.
pub fn end_at(nodes: u16, links: u16) -> usize
    ensures { result ≡ end_at nodes links }
{
    first_cell(links) + CELL * usize::from(nodes)
}
