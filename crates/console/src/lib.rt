// What the programs do: read a park file, run it, and print the table that it comes to: a header, a line for each node (number,
// distance in cost units, parent, mark) and the rounds done. A refusal prints only its number and its place in bytes. A failed
// read or write is told on standard error.
#![tactic(auto)]

pub mod input;
mod text;

use answers::Sizes;
use answers::refusal::Refusal;
use arrayvec::ArrayString;
use input::Input;
use measure::{NODES, Rounds};
use park::layout::LARGEST;
use std::fmt::{Display, Write};
use std::io::{Error, Read};
use table::Table;
use text::Settled;

// Room for a file and one byte more, in bytes: enough to see that bytes follow the largest one, whatever else is to come.
pub const ROOM: usize = LARGEST + 1;

// Room for every text, in bytes: a line of a table has at most 25, and 256 bytes are left for the header and the rounds.
const PAGE: usize = 26 * NODES;

// Tells what failed, and why. Where that fails too, there is nowhere left to tell it.
pub fn fail(rt: &impl Eprint, what: &str, error: &Error) {
    let _ = eprintln!(rt; "{what}: {error}");
}

// Writes the text, and tells where that fails.
pub fn show<R: Print + Eprint>(rt: &R, text: &[u8]) {
    if let Err(error) = rt.write_all(text) {
        fail(rt, "standard output", &error);
    }
}

// Prints a text and the end of its line in one piece. What the page does not hold is left out.
fn show_text<R: Print + Eprint, T: Display + Drop>(rt: &R, text: T) {
    let mut page = ArrayString::<PAGE>::new();
    let _ = writeln!(page, "{text}");
    show(rt, page.as_bytes());
}

// Prints the refusal.
pub fn show_refusal<R: Print + Eprint>(rt: &R, refusal: Refusal) {
    show_text(rt, refusal);
}

// Prints the state of a file of so many nodes and links, and the rounds done.
fn show_settled<R: Print + Eprint>(rt: &R, file: &[u8], nodes: u16, links: u16, rounds: Rounds) {
    let mut dists = [0u32; NODES];
    let mut parents = [0u16; NODES];
    let mut marks = [0u8; NODES];
    reader::apart::take_state(file, nodes, links, &mut dists, &mut parents, &mut marks);
    let n = usize::from(nodes).min(NODES);
    let table = Table {
        dists: &dists[..n],
        parents: &parents[..n],
        marks: &marks[..n],
    };
    show_text(rt, Settled { table, rounds });
}

// Checks a file for its nodes and links, runs it and prints the table that it comes to; or answers the refusal.
fn try_settle<R: Print + Eprint>(rt: &R, file: &[u8], count: Rounds) -> Result<(), Refusal> {
    let Sizes { nodes, links } = reader::check(file)?;
    let mut settled = [0u8; ROOM];
    let ran = run::run(file, count, &mut settled, 0)?;
    show_settled(rt, &settled, nodes, links, ran.rounds);
    Ok(())
}

// Settles a file in at most so many rounds, and prints the table or the refusal.
pub fn settle_file<R: Print + Eprint>(rt: &R, file: &[u8], count: Rounds) {
    if let Err(refusal) = try_settle(rt, file, count) {
        show_refusal(rt, refusal);
    }
}

// Reads a file and settles it, in at most so many rounds.
pub fn settle_from<R: Print + Eprint, I: Read>(rt: &R, from: &mut I, count: Rounds) {
    let mut file = [0u8; ROOM];
    let Input { bytes, failed } = input::read(from, &mut file);
    match failed {
        Some(error) => fail(rt, "input", &error),
        None => settle_file(rt, &file[..bytes], count),
    }
}

// The whole program settle.
pub fn settle_input(rt: &HostRuntime) {
    let mut input = rt.stdin();
    settle_from(rt, &mut input, Rounds::MOST);
}
