//! The name of a capture.
ghost use Rattle.std.specs.Prelude.{◌≡◌, ◌↔◌, true, false, IfOk, IsErrOf};
ghost use Rattle.std.specs.List.{list_all};
ghost use Rattle.path_capture.specs.Name.{is_name, is_name_start, is_name_byte};
ghost use Rattle.path_capture.specs.declared.name.NameFault.TheVariants.{NoMemory as no_memory};

use arrayvec::ArrayString;
use json_tree::NoMemory;
use std::alloc::Global;
use std::marker::Model;
use thiserror::Error;

/// Why a text gives no name.
#[derive(Clone, Copy, Debug, PartialEq, Eq, Error)]
pub enum NameFault {
    /// The text is no name of a capture.
    #[error("no name of a capture")]
    BadName,
    #[error("out of memory")]
    NoMemory,
}

impl From<NoMemory> for NameFault {
    ghost from_gives = { λ _ fault. fault ≡ no_memory };

    fn from(_refused: NoMemory) -> NameFault {
        NameFault::NoMemory
    }
}

// How many bytes of a name lie in the name itself, which takes a place beside a key.
const SHORT_BYTES: usize = 24;

/// The name of a capture, without its `$`: a letter or `_`, and then letters, digits and `_`, all of
/// them ASCII. The bytes of a name of at most 24 lie in it, and take no memory. Contracts see its bytes.
/// (Reference, core syntax: `$` captures; which names there are is this project's profile.)
#[derive(Debug, Drop)]
pub struct CaptureName {
    held: HeldName,
}

// The bytes of a name: in itself, or in a growth.
#[derive(Debug, Drop)]
pub(crate) enum HeldName {
    Short(ArrayString<SHORT_BYTES>),
    Long(String),
}

impl Model for CaptureName {
    ghost use Rattle.std.specs.Prelude.{◌≡◌, ℕ, List, true};
    ghost use Rattle.path_capture.specs.Name.{is_name};
    ghost use Rattle.path_capture.specs.Working.HeldName.{bytes_of};

    ghost Value = { List ℕ };

    ghost view = { λ name. bytes_of name.held };

    ghost invariant = { λ name. is_name (bytes_of name.held) ≡ true };
}

impl CaptureName {
    /// The name of this text, which has no `$`, in one growth at most.
    pub fn new(alloc: Global, text: &str) -> Result<CaptureName, NameFault>
        ensures ok { IfOk result (λ name. name ≡ text.now) }
        ensures bad_name { IsErrOf result NameFault.BadName ↔ (is_name text.now ≡ false) }
    {
        if !is_name(text.as_bytes()) {
            return Err(NameFault::BadName);
        }
        Ok(CaptureName::of_name(alloc, text)?)
    }

    /// The name, without its `$`.
    pub fn text(&self) -> &str
        ensures bytes { result.now ≡ self.now }
        ensures lawful { is_name self.now ≡ true }
    {
        match &self.held {
            HeldName::Short(text) => text.as_str(),
            HeldName::Long(text) => text.as_str(),
        }
    }

    /// The same name once more, in one growth at most.
    pub fn copy(&self, alloc: Global) -> Result<CaptureName, NoMemory>
        ensures { IfOk result (λ name. name ≡ self.now) }
    {
        // The bytes that lie in a name are copied all at once, however many of them are of use.
        match &self.held {
            HeldName::Short(text) => Ok(CaptureName {
                held: HeldName::Short(*text),
            }),
            HeldName::Long(text) => CaptureName::of_name(alloc, text.as_str()),
        }
    }

    // The name of a text that is known to be one.
    fn of_name(alloc: Global, text: &str) -> Result<CaptureName, NoMemory>
        requires { is_name text.now ≡ true }
        ensures { IfOk result (λ name. name ≡ text.now) }
    {
        let held = match ArrayString::from(text) {
            Ok(short) => HeldName::Short(short),
            Err(_) => HeldName::Long(String::from_str(alloc, text)?),
        };
        Ok(CaptureName { held })
    }
}

/// Whether bytes are the name of a capture, which has no `$`. It takes no memory.
pub fn is_name(bytes: &[u8]) -> bool
    ensures { result ≡ is_name bytes.now }
{
    match bytes {
        [first, rest @ ..] => is_name_start(*first) && has_name_bytes(rest),
        [] => false,
    }
}

fn has_name_bytes(bytes: &[u8]) -> bool
    ensures { result ≡ list_all is_name_byte bytes.now }
{
    bytes.iter().all(|b| is_name_byte(*b))
}

fn is_name_start(b: u8) -> bool
    ensures { result ≡ is_name_start b }
{
    b.is_ascii_alphabetic() || b == b'_'
}

fn is_name_byte(b: u8) -> bool
    ensures { result ≡ is_name_byte b }
{
    b.is_ascii_alphanumeric() || b == b'_'
}
