//! A key: the name of one child.
ghost use Rattle.std.specs.Prelude.{◌≡◌, ◌↔◌, ◌<◌, ◌≤◌, ◌++◌, ◌∷◌, ℕ, List, false, true, length, take, get_or, IfOk, IsErrOf, decimal};
ghost use Rattle.std.specs.List.{list_all};
ghost use Rattle.tree_model.specs.Key.{is_key, is_key_byte, key_cmp};
ghost use Rattle.json_tree.specs.declared.key.KeyFault.TheVariants.{NoMemory as no_memory};

use crate::memory::NoMemory;
use arrayvec::ArrayString;
use std::alloc::Global;
use std::cmp::Ordering;
use std::marker::Model;
use thiserror::Error;
use tree_model::MAX_KEY_BYTES;

/// Why a text gives no key.
#[derive(Clone, Copy, Debug, PartialEq, Eq, Error)]
pub enum KeyFault {
    /// The text is no lawful key.
    #[error("no lawful key")]
    BadKey,
    #[error("out of memory")]
    NoMemory,
}

impl From<NoMemory> for KeyFault {
    ghost from_gives = { λ _ fault. fault ≡ no_memory };

    fn from(_refused: NoMemory) -> KeyFault {
        KeyFault::NoMemory
    }
}

/// How many bytes of a key lie in the key itself: a key that a client makes of the time and of chance
/// has 20.
const SHORT_BYTES: usize = 24;

/// A lawful key: 1 to 768 bytes of UTF-8, no ASCII control character and none of `. $ # [ ] /`
/// among them. The bytes of a text of at most 24 lie in its key, which takes no memory for them; the
/// digits of an index in an array do not. Contracts see the bytes. (Guide "Structure Your Database", how
/// data is structured.)
#[derive(Debug, Drop)]
pub struct Key {
    held: Held,
}

// The bytes of a key: in itself, or in a growth.
#[derive(Debug, Drop)]
pub(crate) enum Held {
    Short(ArrayString<SHORT_BYTES>),
    Long(String),
}

impl Model for Key {
    ghost use Rattle.std.specs.Prelude.{◌≡◌, ℕ, List, true};
    ghost use Rattle.tree_model.specs.Key.{is_key};
    ghost use Rattle.json_tree.specs.Working.Held.{bytes_of};

    ghost Value = { List ℕ };

    ghost view = { λ key. bytes_of key.held };

    ghost invariant = { λ key. is_key (bytes_of key.held) ≡ true };
}

impl Key {
    /// The key of this text, in one growth at most.
    pub fn new(alloc: Global, text: &str) -> Result<Key, KeyFault>
        ensures ok { IfOk result (λ key. key ≡ text.now) }
        ensures lawful { IfOk result (λ key. is_key key ≡ true) }
        ensures bad_key { IsErrOf result KeyFault.BadKey ↔ (is_key text.now ≡ false) }
    {
        if !is_lawful_key(text) {
            return Err(KeyFault::BadKey);
        }
        Ok(Key::of_lawful(alloc, text)?)
    }

    /// The key of a text of bytes that may stand in a key, in one growth at most: of the text only the length is
    /// tested.
    pub fn of_key_bytes(alloc: Global, text: &str) -> Result<Key, KeyFault>
        requires { list_all is_key_byte text.now ≡ true }
        ensures ok { IfOk result (λ key. key ≡ text.now) }
        ensures lawful { IfOk result (λ key. is_key key ≡ true) }
        ensures bad_key { IsErrOf result KeyFault.BadKey ↔ (is_key text.now ≡ false) }
    {
        if !has_length_of_key(text) {
            return Err(KeyFault::BadKey);
        }
        Ok(Key::of_lawful(alloc, text)?)
    }

    /// The text of the key.
    pub fn text(&self) -> &str
        ensures bytes { result.now ≡ self.now }
        ensures lawful { is_key self.now ≡ true }
    {
        match &self.held {
            Held::Short(text) => text.as_str(),
            Held::Long(text) => text.as_str(),
        }
    }

    /// The same key once more, in one growth at most.
    pub fn copy(&self, alloc: Global) -> Result<Key, NoMemory>
        ensures { IfOk result (λ key. key ≡ self.now) }
    {
        // The bytes that lie in a key are copied all at once, however many of them are of use.
        match &self.held {
            Held::Short(text) => Ok(Key {
                held: Held::Short(*text),
            }),
            Held::Long(text) => Key::of_lawful(alloc, text.as_str()),
        }
    }

    // Where the key stands beside a text, by their bytes.
    pub(crate) fn compare(&self, text: &str) -> Ordering
        ensures { result ≡ key_cmp self.now text.now }
    {
        self.text().cmp(text)
    }

    /// The key of a text that is known to be lawful, in one growth at most and without a test.
    pub fn of_lawful(alloc: Global, text: &str) -> Result<Key, NoMemory>
        requires { is_key text.now ≡ true }
        ensures { IfOk result (λ key. key ≡ text.now) }
    {
        let held = match ArrayString::from(text) {
            Ok(short) => Held::Short(short),
            Err(_) => Held::Long(String::from_str(alloc, text)?),
        };
        Ok(Key { held })
    }

    // The key of an index in an array: its decimal digits.
    pub(crate) fn of_index(alloc: Global, index: usize) -> Result<Key, NoMemory>
        ensures { IfOk result (λ key. key ≡ decimal index) }
    {
        Ok(Key {
            held: Held::Long(index.to_string(alloc)?),
        })
    }
}

/// Whether a text is a lawful key, in one pass over its bytes. It takes no memory.
pub fn is_lawful_key(text: &str) -> bool
    ensures { result ≡ is_key text.now }
{
    let bytes = text.as_bytes();
    1 <= bytes.len() && bytes.len() <= MAX_KEY_BYTES && has_key_bytes(bytes)
}

// Whether a text of bytes that may stand in a key is one.
fn has_length_of_key(text: &str) -> bool
    requires { list_all is_key_byte text.now ≡ true }
    ensures { result ≡ is_key text.now }
{
    let length = text.len();
    1 <= length && length <= MAX_KEY_BYTES
}

/// The longest front of a text that has no byte but those that may stand in a key, and what follows it, in one
/// pass over that front. It takes no memory.
pub fn key_front(text: &str) -> (&str, &str)
    ensures whole { text.now ≡ result.0.now ++ result.1.now }
    ensures bytes { list_all is_key_byte result.0.now ≡ true }
    ensures longest { (b : ℕ) (rest : List ℕ) → result.1.now ≡ b ∷ rest → is_key_byte b ≡ false }
{
    text.split_at(key_run(text.as_bytes()))
}

// How many bytes come first that may stand in a key.
fn key_run(bytes: &[u8]) -> usize
    ensures within { result ≤ length bytes.now }
    ensures passes { list_all is_key_byte (take result bytes.now) ≡ true }
    ensures stops { result < length bytes.now → is_key_byte (get_or bytes.now result 0) ≡ false }
{
    let mut n = 0;
    while n < bytes.len() && is_key_byte(bytes[n]) {
        n += 1;
    }
    n
}

fn has_key_bytes(bytes: &[u8]) -> bool
    ensures { result ≡ list_all is_key_byte bytes.now }
{
    bytes.iter().all(|b| is_key_byte(*b))
}

fn is_key_byte(b: u8) -> bool
    ensures { result ≡ is_key_byte b }
{
    // Most bytes of keys are small letters or digits.
    if b'^' <= b {
        return b != 127;
    }
    if b'0' <= b && b <= b'Z' {
        return true;
    }
    32 <= b && !matches!(b, b'.' | b'$' | b'#' | b'[' | b']' | b'/')
}

/// The same keys once more, by one growth for the list and one at most for each key.
pub fn copy_keys(alloc: Global, keys: &[Key]) -> Result<Vec<Key>, NoMemory>
    ensures { IfOk result (λ copies. copies.items ≡ keys.now) }
{
    let mut copies = Vec::with_capacity(alloc, keys.len())?;
    for key in keys {
        copies.push(key.copy(alloc)?)?;
    }
    Ok(copies)
}
