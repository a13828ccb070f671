// The file that a park's numbers would make, put into lent bytes. Numbers that are too many or too few for their field
// end the file there, with a length that Check refuses; nothing else is judged here. Places are in bytes.
ghost use Rattle.std.specs.Prelude.{◌≡◌, Bool, List, ◌∷◌, ℕ, ◌+◌, ◌*◌, ◌/◌, length, SomeIff, IsTrue};
ghost use Rattle.std.proofs.lemmas.List.Edits.{sets};
ghost use Rattle.wire.specs.Big.{bytes_of};
ghost use Rattle.park.specs.Layout.{tag_of, cell_size, links_at, first_link, group_at, state_at};
ghost use Rattle.writer.specs.declared.made.Numbers.{Numbers};
ghost use Rattle.writer.specs.Made.{numbers, links_right, state_right};
ghost use Rattle.writer.specs.Fields.{from_state, from_group, from_links, file_from};

use measure::{LINKS, NODES};
use park::layout::{
    CELL, FIRST_LINK, Field, GROUP, HEAD, LINKS_AT, NODES_AT, ROOT_AT, end_at, group_at, state_at,
};
use table::Table;

// A length that no field may have, in bytes.
const NO_LENGTH: u16 = 65_535;

// Puts 16-bit numbers one behind the other from the place of the first link on.
fn put_numbers(out: &mut [u8], list: &[u16])
    ensures { out.new ≡ sets out.old first_link (numbers list.now) }
{
    for (i, number) in list.iter().enumerate() {
        wire::put16(out, FIRST_LINK + 2 * i, *number);
    }
}

// Puts a field's tag and length, in bytes, at a place.
#[tactic(auto, unfolding(wire::specs::Big::bytes_of))]
fn put_head(out: &mut [u8], at: usize, field: Field, size: u16)
    ensures { out.new ≡ sets out.old at (tag_of field ∷ bytes_of 2 size) }
{
    let [high, low] = size.to_be_bytes();
    wire::bytes::put_array(out, at, &[field.tag(), high, low]);
}

// The numbers of a park: n and the root, the links (three numbers a link), the bytes of the group, and for each node its
// distance (in cost units), parent and mark.
#[derive(Clone, Copy)]
pub(crate) struct Numbers<'a> {
    pub(crate) nodes: u16,
    pub(crate) root: u16,
    pub(crate) links: &'a [u16],
    pub(crate) group: &'a [u8],
    pub(crate) table: Table<'a>,
}

impl Numbers<'_> {
    // How many links there are; none where the links are not three numbers each, or more than 1,024.
    fn link_count(&self) -> Option<u16>
        ensures { let triples : List ℕ = self.now.links.now in
            SomeIff result (IsTrue (links_right triples)) (length triples / 3) }
    {
        if self.links.len() % 3 != 0 || 3 * LINKS < self.links.len() {
            return None;
        }
        Some((self.links.len() / 3) as u16)
    }

    // The length of the state's field, in bytes; none where distances, parents and marks are not n each, or n is more
    // than 256.
    fn state_size(&self) -> Option<u16>
        ensures { let p : Numbers = self.now in
            let right : Bool = state_right p.nodes p.table.dists.now p.table.parents.now p.table.marks.now in
            SomeIff result (IsTrue right) (cell_size * p.nodes) }
    {
        let n = usize::from(self.nodes);
        let Table {
            dists,
            parents,
            marks,
        } = self.table;
        if NODES < n || dists.len() != n || parents.len() != n || marks.len() != n {
            return None;
        }
        Some((CELL * n) as u16)
    }

    // Makes the state's field behind so many links and answers where it ends.
    fn make_state(&self, out: &mut [u8], links: u16) -> usize
        ensures made { let made : List ℕ = from_state self.now in
            (out.new ≡ sets out.old (state_at links) made) × (result ≡ state_at links + length made) }
    {
        let at = state_at(links);
        let Some(size) = self.state_size() else {
            put_head(out, at, Field::State, NO_LENGTH);
            return at + HEAD;
        };
        put_head(out, at, Field::State, size);
        area::state::put_cells(out, at + HEAD, &self.table);
        end_at(self.nodes, links)
    }

    // Makes the group's field behind so many links, and the state's behind it; answers where they end.
    #[tactic(auto, using(crate::proofs::MakeLaws::group_field))]
    fn make_group(&self, out: &mut [u8], links: u16) -> usize
        ensures made { let made : List ℕ = from_group self.now in
            (out.new ≡ sets out.old (group_at links) made) × (result ≡ group_at links + length made) }
    {
        let at = group_at(links);
        if self.group.len() != GROUP {
            put_head(out, at, Field::Group, NO_LENGTH);
            return at + HEAD;
        }
        put_head(out, at, Field::Group, GROUP as u16);
        wire::bytes::put_bytes(out, at + HEAD, self.group);
        self.make_state(out, links)
    }

    // Makes the links' field in its place, and the others behind it; answers where they end.
    fn make_links(&self, out: &mut [u8]) -> usize
        ensures made { let made : List ℕ = from_links self.now in
            (out.new ≡ sets out.old links_at made) × (result ≡ links_at + length made) }
    {
        let Some(links) = self.link_count() else {
            put_head(out, LINKS_AT, Field::Links, NO_LENGTH);
            return FIRST_LINK;
        };
        put_head(out, LINKS_AT, Field::Links, (2 * self.links.len()) as u16);
        put_numbers(out, self.links);
        self.make_group(out, links)
    }

    // Makes the file of the numbers from the start of `out`; answers its length, in bytes.
    pub(crate) fn make(&self, out: &mut [u8]) -> usize
        ensures made { let file : List ℕ = file_from self.now in
            (out.new ≡ sets out.old 0 file) × (result ≡ length file) }
    {
        put_head(out, 0, Field::Nodes, 4);
        wire::put16(out, NODES_AT, self.nodes);
        wire::put16(out, ROOT_AT, self.root);
        self.make_links(out)
    }
}
