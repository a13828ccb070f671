// The table that settle prints.
ghost use Rattle.std.specs.Prelude.{◌≡◌};
ghost use Rattle.console.specs.Text.{line_of};

use measure::{Cost, Rounds};
use std::fmt;
use table::{Table, dist_at, mark_at, parent_at};

// A settled table, and the rounds done.
#[derive(Clone, Copy)]
pub(crate) struct Settled<'a> {
    pub(crate) table: Table<'a>,
    pub(crate) rounds: Rounds,
}

// The line of a node.
#[derive(Clone, Copy)]
pub(crate) struct Line {
    node: usize,
    dist: Cost,
    parent: u16,
    mark: u8,
}

impl Settled<'_> {
    // The line of a node, by its number.
    fn line(&self, node: usize) -> Line
        ensures { result ≡ line_of self.now node }
    {
        Line {
            node,
            dist: dist_at(self.table.dists, node),
            parent: parent_at(self.table.parents, node),
            mark: mark_at(self.table.marks, node),
        }
    }
}

impl fmt::Display for Line {
    ghost use Rattle.std.specs.Prelude.{Some};
    ghost use Rattle.console.specs.Text.{line_text};

    ghost output = { λ line. Some (line_text line) };

    fn fmt<W: fmt::Write>(&self, f: &mut fmt::Formatter<W>) -> fmt::Result {
        let (node, dist, parent, mark) = (self.node, self.dist.0, self.parent, self.mark);
        write!(f, "{node} {dist} {parent} {mark}")
    }
}

// A header, the lines of all nodes, and the rounds.
impl fmt::Display for Settled<'_> {
    ghost use Rattle.std.specs.Prelude.{Some};
    ghost use Rattle.console.specs.Text.{settled_text};

    ghost output = { λ table. Some (settled_text table) };

    fn fmt<W: fmt::Write>(&self, f: &mut fmt::Formatter<W>) -> fmt::Result {
        writeln!(f, "node distance parent mark")?;
        for before in 0..self.table.dists.len() {
            let line = self.line(before + 1);
            writeln!(f, "{line}")?;
        }
        let rounds = self.rounds.0;
        write!(f, "rounds {rounds}")
    }
}
