//! A removal: what it removes, and the write that it is.
ghost use Rattle.std.specs.Prelude.{◌≡◌};
ghost use Rattle.rtdb_model.specs.Step.{removal};

use path_capture::{Path, Write};
use std::marker::Model;

/// A removal of what is at a location: the null write there. Contracts see it as the location.
#[derive(Debug, Drop)]
pub struct Removal {
    write: Write,
}

impl Model for Removal {
    ghost use Rattle.std.specs.Prelude.{◌≡◌, List, ℕ};
    ghost use Rattle.std.specs.Coded.{coded_list, coded_ℕ};
    ghost use Rattle.tree_model.specs.Put.{location, written};
    ghost use Rattle.tree_model.specs.Draft.{null_draft};

    ghost Value = { List (List ℕ) };

    ghost coded = { coded_list (coded_list coded_ℕ) };

    ghost view = { λ removal. location removal.write };

    ghost invariant = { λ removal. written removal.write ≡ null_draft };
}

impl Removal {
    /// The removal of what is at a path. It takes no memory.
    pub fn of(path: Path) -> Removal
        ensures { result ≡ path }
    {
        // It has at most 32 keys.
        path.keys();
        let Ok(write) = Write::new(path, None) else {
            unreachable!()
        };
        Removal { write }
    }

    /// The write that it is.
    pub fn write(&self) -> &Write
        ensures { result.now ≡ removal self.now }
    {
        &self.write
    }

    /// The write that it is, without taking memory.
    pub fn into_write(self) -> Write
        ensures { result ≡ removal self }
    {
        self.write
    }
}
