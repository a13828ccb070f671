// Cases E and L of document 01 and the inputs that settle refuses, each opened from a file, run and printed.
#![tactic(auto)]

ghost use Rattle.io.specs.Counts.{IsPrefixLen};

use console::ROOM;
use measure::Rounds;
use std::fs;

// Settles a named file, in at most so many rounds.
fn settle(rt: &HostRuntime, name: &str, count: Rounds) {
    match fs::open(rt, name) {
        Ok(mut file) => console::settle_from(rt, &mut file, count),
        Err(error) => console::fail(rt, name, &error),
    }
}

// Writes the exact table of the file into the area, and prints what that comes to.
fn show_exact(rt: &HostRuntime, file: &[u8], area: &mut [u8]) {
    match exact::exact(file, area, 0) {
        Ok(()) => console::show(rt, b"done\n"),
        Err(refusal) => console::show_refusal(rt, refusal),
    }
}

// Case E: n 3, root 1, link 2-3 cost 65,535, no member; after 256 rounds and until it is quiet.
fn case_e(rt: &HostRuntime) {
    settle(rt, "e.park", Rounds(256));
    settle(rt, "e.park", Rounds::MOST);
}

// Puts a named file at the start of the room, and answers how many bytes of it are there: none where it cannot be opened.
fn take_file(rt: &HostRuntime, name: &str, room: &mut [u8]) -> usize
    ensures { IsPrefixLen result room.new }
{
    match fs::open(rt, name) {
        Ok(mut file) => console::input::read(&mut file, room).bytes,
        Err(error) => {
            console::fail(rt, name, &error);
            0
        }
    }
}

// Case L: F's file of 100 bytes, with one byte more, into an area one byte short, and into one that is exactly long enough.
fn case_l(rt: &HostRuntime) {
    settle(rt, "longer.park", Rounds::MOST);
    let mut file = [0u8; ROOM];
    let n = take_file(rt, "f.park", &mut file);
    let mut short = [0u8; 99];
    let mut area = [0u8; 100];
    show_exact(rt, &file[..n], &mut short);
    show_exact(rt, &file[..n], &mut area);
    console::settle_file(rt, &area, Rounds(0));
}

// What settle prints for n 257, for an empty input, and for 100,000 bytes of which case A's file is the first part.
fn refused(rt: &HostRuntime) {
    settle(rt, "refused.park", Rounds::MOST);
    settle(rt, "empty.park", Rounds::MOST);
    settle(rt, "long.park", Rounds::MOST);
}

fn main(rt: HostRuntime) {
    case_e(&rt);
    case_l(&rt);
    refused(&rt);
}
