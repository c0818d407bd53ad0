//! A path: which location of a tree is meant.
ghost use Rattle.std.specs.Prelude.{◌≡◌, ◌↔◌, ◌<◌, ◌≤◌, ◌+◌, ◌++◌, ℕ, List, [], true, false, length, Some, None, if◌then◌else◌, IfOk, IfSome, OnSome, OnOk, OnErr, IsErrOf, string_bytes};
ghost use Rattle.std.specs.List.{list_all};
ghost use Rattle.tree_model.specs.Key.{is_key, is_key_byte};
ghost use Rattle.tree_model.specs.Path.{path_cmp, is_path, is_prefix};
ghost use Rattle.path_capture.specs.Path.{segments, printed};
ghost use Rattle.path_capture.specs.Working.Slashes.{ends_piece, IsPastSlash};
ghost use Rattle.path_capture.specs.declared.path.PathFault.TheVariants.{NoMemory as no_memory};

use json_tree::{Key, NoMemory, copy_keys, is_lawful_key, key_front};
use std::alloc::Global;
use std::cmp::Ordering;
use std::marker::Model;
use thiserror::Error;
use tree_model::MAX_DEPTH;

// For how many keys a path that is read has room at first.
const USUAL_KEYS: usize = 8;

/// For how many bytes the text of a path or of a pattern has room at first.
pub(crate) const USUAL_TEXT_BYTES: usize = 64;

/// Why a text gives no path.
#[derive(Clone, Copy, Debug, PartialEq, Eq, Error)]
pub enum PathFault {
    /// Some segment is no lawful key.
    #[error("no lawful path")]
    BadPath,
    /// There are over 32 segments, all of them lawful keys.
    #[error("path of more than 32 keys")]
    TooDeep,
    #[error("out of memory")]
    NoMemory,
}

impl From<NoMemory> for PathFault {
    ghost from_gives = { λ _ fault. fault ≡ no_memory };

    fn from(_refused: NoMemory) -> PathFault {
        PathFault::NoMemory
    }
}

/// A path: at most 32 lawful keys, from the root down to a location. Contracts see the list of its
/// keys. (Guide "Structure Your Database", how data is structured and avoid nesting data.)
#[derive(Debug, Drop)]
pub struct Path {
    held: Vec<Key>,
}

impl Model for Path {
    ghost use Rattle.std.specs.Prelude.{◌≡◌, ℕ, List, true};
    ghost use Rattle.tree_model.specs.Path.{is_path};

    ghost Value = { List (List ℕ) };

    ghost view = { λ path. path.held.items };

    ghost invariant = { λ path. is_path path.held.items ≡ true };
}

impl Path {
    /// The path of the root. It takes no memory.
    pub fn root(alloc: Global) -> Path
        ensures { result ≡ [] }
    {
        Path {
            held: Vec::new(alloc),
        }
    }

    /// The path of a text: its segments between slashes, of which empty ones are dropped. One pass
    /// makes the path, by one growth for a list of at most eight keys, one more each time a longer list
    /// doubles, and one at most for each key; where it gives up, a second finds why, and takes no
    /// memory. (This project's profile.)
    pub fn parse(alloc: Global, text: &str) -> Result<Path, PathFault>
        ensures ok { IfOk result (λ path. path ≡ segments text.now) }

        // A key that is not lawful is reported before the depth, wherever it stands.
        ensures bad_path { IsErrOf result PathFault.BadPath ↔ (list_all is_key (segments text.now) ≡ false) }
        ensures too_deep { IsErrOf result PathFault.TooDeep ↔ ((list_all is_key (segments text.now) ≡ true) × (MAX_DEPTH < length (segments text.now))) }
    {
        Path::root(alloc).parse_below(alloc, text)
    }

    /// The path of a text below this one: these keys, and behind them the segments of the text. It takes as
    /// much memory as [`parse`](Path::parse) does, and one growth at most for each key of this path.
    pub fn parse_below(&self, alloc: Global, text: &str) -> Result<Path, PathFault>
        ensures ok { IfOk result (λ path. path ≡ self.now ++ segments text.now) }
        ensures bad_path { IsErrOf result PathFault.BadPath ↔ (list_all is_key (segments text.now) ≡ false) }
        ensures too_deep { IsErrOf result PathFault.TooDeep ↔ ((list_all is_key (segments text.now) ≡ true) × (MAX_DEPTH < length self.now + length (segments text.now))) }
    {
        let keys = self.keys();
        if let Some(held) = keys_below(alloc, keys, text) {
            return Ok(Path { held });
        }
        match count_of_segments(text) {
            None => Err(PathFault::BadPath),
            Some(count) => if keys.len().saturating_add(count) > MAX_DEPTH {
                Err(PathFault::TooDeep)
            } else {
                Err(PathFault::NoMemory)
            },
        }
    }

    /// The path of these keys, at most 32, from the root down. It takes no memory.
    pub fn of_keys(keys: Vec<Key>) -> Path
        requires { length keys.items ≤ MAX_DEPTH }
        ensures { result ≡ keys.items }
    {
        // Each is lawful.
        for key in &keys {
            key.text();
        }
        Path { held: keys }
    }

    /// The keys, from the root down. It takes no memory.
    pub fn keys(&self) -> &[Key]
        ensures keys { result.now ≡ self.now }
        ensures lawful { is_path self.now ≡ true }
    {
        self.held.as_slice()
    }

    /// The keys themselves, from the root down. It takes no memory.
    pub fn into_keys(self) -> Vec<Key>
        ensures { result.items ≡ self }
    {
        let Path { held } = self;
        held
    }

    /// Whether the path is a prefix of the other one, or the same. It takes no memory, and time
    /// linear in the bytes that it compares.
    pub fn is_prefix(&self, other: &Path) -> bool
        ensures { result ≡ is_prefix self.now other.now }
    {
        is_prefix_of(self.keys(), other.keys())
    }

    /// The order of paths: by the list of keys, each key by its bytes, a prefix first. It takes no
    /// memory, and time linear in the bytes that it compares. (This project's profile.)
    pub fn compare(&self, other: &Path) -> Ordering
        ensures { result ≡ path_cmp self.now other.now }
    {
        compare_keys(self.keys(), other.keys())
    }

    /// The text of the path: `/` for the root, else as `/a/b`. It is read back as the same path. It takes one
    /// growth, and more where it has over 64 bytes.
    pub fn print(&self, alloc: Global) -> Result<String, NoMemory>
        ensures { IfOk result (λ text. string_bytes text ≡ printed self.now) }
    {
        print_keys(alloc, self.keys())
    }

    /// The same path once more, by one growth for the list and one at most for each key.
    pub fn copy(&self, alloc: Global) -> Result<Path, NoMemory>
        ensures { IfOk result (λ path. path ≡ self.now) }
    {
        Ok(Path {
            held: copy_keys(alloc, self.keys())?,
        })
    }

    /// Moves the keys of the other path after those of this one, by one growth at most. A refusal
    /// leaves both as they were.
    pub fn join(&mut self, below: &mut Path) -> Result<(), PathFault>
        ensures ok { OnOk result (self.new ≡ self.old ++ below.old) }
        ensures moved { OnOk result (below.new ≡ []) }
        ensures err { OnErr result ((self.new ≡ self.old) × (below.new ≡ below.old)) }
        ensures too_deep { IsErrOf result PathFault.TooDeep ↔ (MAX_DEPTH < length self.old + length below.old) }
        ensures no_bad_path { ¬ IsErrOf result PathFault.BadPath }
    {
        if self.keys().len() + below.keys().len() > MAX_DEPTH {
            return Err(PathFault::TooDeep);
        }
        append(&mut self.held, &mut below.held)?;
        Ok(())
    }
}

/// The text of a lawful path is read back as that path.
pub fn what_is_printed_is_read_back()
    ensures same { (p : List (List ℕ)) → is_path p ≡ true → segments (printed p) ≡ p }
    ensures lawful { (p : List (List ℕ)) → is_path p ≡ true → is_path (segments (printed p)) ≡ true }
{}

// How many segments the text has, or `None` where one of them is no lawful key.
fn count_of_segments(text: &str) -> Option<usize>
    ensures { result ≡ (if list_all is_key (segments text.now) then Some (length (segments text.now)) else None) }
{
    let mut count = 0;
    for piece in text.split('/') {
        if piece.is_empty() {
            continue;
        }
        if !is_lawful_key(piece) {
            return None;
        }
        count += 1;
    }
    Some(count)
}

// These keys, and behind them those of a text, or `None` where one of its segments is no lawful key, where
// there are more than 32, or where memory is wanted.
fn keys_below(alloc: Global, front: &[Key], text: &str) -> Option<Vec<Key>>
    requires { is_path front.now ≡ true }
    ensures keys { IfSome result (λ keys. keys.items ≡ front.now ++ segments text.now) }
    ensures path { IfSome result (λ keys. is_path keys.items ≡ true) }
{
    let mut keys = begun(alloc, front)?;
    let mut rest = text;
    while !rest.is_empty() {
        let (piece, behind) = key_front(rest);
        keep_piece(alloc, &mut keys, piece)?;
        if !ends_piece(behind) {
            return None;
        }
        rest = past_slash(behind);
    }
    Some(keys)
}

// Whether a piece ends before this text: nothing comes, or a slash.
fn ends_piece(text: &str) -> bool
    ensures { result ≡ ends_piece text.now }
{
    matches!(text.as_bytes(), [] | [b'/', ..])
}

// What follows the slash that comes first, or nothing where nothing comes.
fn past_slash(text: &str) -> &str
    requires { ends_piece text.now ≡ true }
    ensures { IsPastSlash text.now result.now }
{
    if text.is_empty() {
        return text;
    }
    text.split_at(1).1
}

// Keeps a piece as one key more, unless it is empty. `None` where it is too long for a key, where there are 32
// already, or where memory is wanted.
fn keep_piece(alloc: Global, keys: &mut Vec<Key>, piece: &str) -> Option<()>
    requires bytes { list_all is_key_byte piece.now ≡ true }
    requires path { is_path keys.old.items ≡ true }
    ensures keys { OnSome result (keys.new.items ≡ keys.old.items ++ segments piece.now) }
    ensures path { OnSome result (is_path keys.new.items ≡ true) }
{
    if piece.is_empty() {
        return Some(());
    }
    if keys.len() == MAX_DEPTH {
        return None;
    }
    keys.push(Key::of_key_bytes(alloc, piece).ok()?).ok()?;
    Some(())
}

// The same keys once more, with room for as many as are usual behind them, or `None` where memory is wanted.
fn begun(alloc: Global, front: &[Key]) -> Option<Vec<Key>>
    ensures { IfSome result (λ keys. keys.items ≡ front.now) }
{
    let mut keys = Vec::with_capacity(alloc, front.len().saturating_add(USUAL_KEYS)).ok()?;
    for key in front {
        keys.push(key.copy(alloc).ok()?).ok()?;
    }
    Some(keys)
}

/// Whether the first of these lists of keys is a prefix of the other one, or the same. It takes no
/// memory, and time linear in the bytes that it compares.
pub fn is_prefix_of(front: &[Key], keys: &[Key]) -> bool
    ensures { result ≡ is_prefix front.now keys.now }
{
    front.len() <= keys.len()
        && front
            .iter()
            .zip(keys)
            .all(|(key, other)| key.text() == other.text())
}

/// The order of the paths of these keys: that of [`Path::compare`], of paths that may be the fronts of longer ones.
pub fn compare_keys(keys: &[Key], others: &[Key]) -> Ordering
    ensures { result ≡ path_cmp keys.now others.now }
{
    keys.iter()
        .map(|key| key.text())
        .cmp(others.iter().map(|key| key.text()))
}

fn print_keys(alloc: Global, keys: &[Key]) -> Result<String, NoMemory>
    ensures { IfOk result (λ text. string_bytes text ≡ printed keys.now) }
{
    let mut text = String::with_capacity(alloc, USUAL_TEXT_BYTES)?;
    for key in keys {
        text.push('/')?;
        text.push_str(key.text())?;
    }
    if keys.is_empty() {
        text.push('/')?;
    }
    Ok(text)
}

fn append(keys: &mut Vec<Key>, others: &mut Vec<Key>) -> Result<(), NoMemory>
    ensures ok { OnOk result (keys.new.items ≡ keys.old.items ++ others.old.items) }
    ensures moved { OnOk result (others.new.items ≡ []) }
    ensures err { OnErr result ((keys.new.items ≡ keys.old.items) × (others.new.items ≡ others.old.items)) }
{
    Ok(keys.append(others)?)
}
