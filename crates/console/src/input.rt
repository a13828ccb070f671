// Reading in pieces, from a pipe too, until the room is full, the input ends or a read fails.
ghost use Rattle.std.specs.Prelude.{◌<◌, length, take, IsNone};
ghost use Rattle.std.specs.Io.KnownBytes.{Consumes, IsAtEnd};
ghost use Rattle.io.specs.Counts.{IsPrefixLen};

use std::io::{Error, Read};

// What reading came to.
#[derive(Drop)]
pub struct Input {
    // How many bytes stand at the start of the room.
    pub bytes: usize,
    // Why a read failed, where one did.
    pub failed: Option<Error>,
}

// Reads until the room is full, the input ends or a read fails. An input without an end stops at the room's.
#[tactic(auto, using(crate::proofs::InputLaws::taken_more))]
pub fn read<R: Read>(from: &mut R, room: &mut [u8]) -> Input
    ensures within { IsPrefixLen result.bytes room.new }
    ensures taken { Consumes (R.remaining from.old) (R.remaining from.new) (take result.bytes room.new) }
    ensures whole { IsNone result.failed → result.bytes < length room.new → IsAtEnd (R.remaining from.new) }
{
    let mut done = 0;
    while done < room.len() {
        match from.read(&mut room[done..]) {
            Ok(0) => break,
            Ok(more) => done += more,
            Err(error) => {
                return Input {
                    bytes: done,
                    failed: Some(error),
                };
            }
        }
    }
    Input {
        bytes: done,
        failed: None,
    }
}
