// Reading a park file: its fields are checked once, in document 01's order, and its numbers are taken apart into lent slices.
#![tactic(auto)]

pub mod apart;
mod bits;
mod fields;
mod numbers;
mod records;

ghost use Rattle.std.specs.Prelude.{◌≡◌, MatchResult, Err};
ghost use Rattle.park.specs.Reading.{ReadAs, read_answer, check_of};
ghost use Rattle.wire.specs.Big.{Bytes};

use crate::fields::Fields;
use answers::refusal::Refusal;
use answers::{Head, Sizes};

// The nodes, the root and the links of a file, or its refusal. They are read once, and handed on to what checks the fields.
pub fn read(file: &[u8]) -> Result<Head, Refusal>
    ensures { result ≡ read_answer file.now }
{
    let fields = Fields::new(file);
    fields.verdict()?;
    Ok(fields.head)
}

// The nodes and the links of a file, or its refusal.
pub fn check(file: &[u8]) -> Result<Sizes, Refusal>
    ensures { result ≡ check_of file.now }
{
    let Head { nodes, links, .. } = read(file)?;
    Ok(Sizes { nodes, links })
}

// A file that was read: it is not refused, and the head is its own.
#[derive(Clone, Copy)]
pub struct ReadFile<'a> {
    pub file: &'a [u8],
    pub head: Head,
    ghost bytes: { Bytes file.now },
    ghost read_as: { ReadAs file.now head },
}

impl<'a> ReadFile<'a> {
    // Reads a file, or answers its refusal.
    pub fn new(file: &'a [u8]) -> Result<ReadFile<'a>, Refusal>
        ensures { MatchResult result (λ f. f.file.now ≡ file.now) (λ r. read_answer file.now ≡ Err r) }
    {
        let head = read(file)?;
        Ok(ReadFile { file, head })
    }
}
