//! The line that comes in pieces.
ghost use Rattle.std.specs.Prelude.{◌≡◌, ℕ, ◌≤◌, ◌++◌, ◌↔◌, [], List, vec_len, IsTrue, OnOk};
ghost use Rattle.scripts.specs.Lines.{is_blank};
ghost use Rattle.scripts.specs.Working.Parts.{FRONT_BYTES, front, KeepsFront};

use json_lines::MAX_MESSAGE_BYTES;
use json_tree::NoMemory;
use std::alloc::{AllocError, Global};

/// Of a line that is not complete yet, what its answer rests on: its first 1,048,577 bytes, one more
/// than a message may have, and whether it is blank so far. So a line of any length takes about 2 MiB
/// at most, as a vector that grows doubles.
#[derive(Drop)]
pub struct Line {
    /// The first bytes of the line.
    pub kept: Vec<u8>,
    /// Whether all bytes so far are blank, those that are not kept too.
    pub blank: bool,
    ghost short: { vec_len kept ≤ FRONT_BYTES },
}

impl Line {
    /// An empty line. It takes no memory.
    #[tactic(auto, using(crate::proofs::Keeping::front_nil))]
    pub fn new(alloc: Global) -> Line
        ensures { KeepsFront result.kept.items result.blank [] }
    {
        Line {
            kept: Vec::new(alloc),
            blank: true,
        }
    }

    /// Whether nothing of the line has come yet.
    pub fn is_empty(&self) -> bool
        ensures { IsTrue result ↔ (self.now.kept.items ≡ []) }
    {
        self.kept.is_empty()
    }

    /// Takes more of the line.
    pub fn add(&mut self, piece: &[u8]) -> Result<(), NoMemory>
        ensures { (line : List ℕ) → KeepsFront self.old.kept.items self.old.blank line
            → OnOk result (KeepsFront self.new.kept.items self.new.blank (line ++ piece.now)) }
    {
        self.blank = self.blank && is_blank(piece);
        keep(&mut self.kept, piece)?;
        Ok(())
    }

    /// Begins the next line. It keeps its memory.
    #[tactic(auto, using(crate::proofs::Keeping::front_nil))]
    pub fn clear(&mut self)
        ensures { KeepsFront self.new.kept.items self.new.blank [] }
    {
        self.kept.clear();
        self.blank = true;
    }
}

/// Whether a text is blank: one look at each byte, up to the first that is not.
pub fn is_blank(text: &[u8]) -> bool
    ensures { result ≡ is_blank text.now }
{
    for byte in text {
        if *byte != b' ' && *byte != b'\t' && *byte != b'\r' {
            return false;
        }
    }
    true
}

// Adds as much of the piece as there is room for.
fn keep(kept: &mut Vec<u8>, piece: &[u8]) -> Result<(), AllocError>
    requires { vec_len kept.old ≤ FRONT_BYTES }
    ensures ok { OnOk result (kept.new.items ≡ front (kept.old.items ++ piece.now)) }
    ensures short { vec_len kept.new ≤ FRONT_BYTES }
{
    let room = MAX_MESSAGE_BYTES + 1 - kept.len();
    if room < piece.len() {
        kept.extend_from_slice(&piece[..room])?;
    } else {
        kept.extend_from_slice(piece)?;
    }
    Ok(())
}
