//! By what children are ordered, and how many of them are asked for.
ghost use Rattle.std.specs.Prelude.{◌≡◌, IfOk, string_bytes};
ghost use Rattle.path_capture.specs.Path.{segments};
ghost use Rattle.listeners.specs.Query.{joined};
ghost use Rattle.listeners.specs.Working.Ahead.{number_in, is_ahead};
ghost use Rattle.listeners.specs.Working.Items.{rank_seen};

use crate::item::Item;
use json_tree::{Key, NoMemory};
use path_capture::Path;
use std::alloc::Global;

// By their keys, by their values, or by the values at a path below them.
#[derive(Debug, Drop)]
pub(crate) enum Order {
    Key,
    Value,
    Child(ChildPath),
}

// A path, and the text of its keys, joined by slashes.
#[derive(Debug, Drop)]
pub(crate) struct ChildPath {
    pub(crate) path: Path,
    pub(crate) text: String,
    ghost same: { string_bytes text ≡ joined path },
}

// The first children alone, or the last ones.
#[derive(Clone, Copy, Debug)]
pub(crate) enum Limit {
    First(u16),
    Last(u16),
}

impl Limit {
    // How many it keeps.
    pub(crate) fn number(self) -> usize
        ensures { result ≡ number_in self }
    {
        match self {
            Limit::First(n) | Limit::Last(n) => usize::from(n),
        }
    }

    // Whether a child stands ahead of another, from the end at which it begins to count.
    pub(crate) fn is_ahead(self, other: &Item<'_>, item: &Item<'_>) -> bool
        ensures { result ≡ is_ahead self (rank_seen item.now) (rank_seen other.now) }
    {
        match self {
            Limit::First(_) => other.compare(item).is_lt(),
            Limit::Last(_) => other.compare(item).is_gt(),
        }
    }
}

impl ChildPath {
    // The path of a text, by one growth for the list of its keys, one at most for each key, and those of the
    // joined text.
    pub(crate) fn parse(alloc: Global, text: &str) -> Result<ChildPath, NoMemory>
        ensures { IfOk result (λ child. child.path ≡ segments text.now) }
    {
        let Ok(path) = Path::parse(alloc, text) else {
            return Err(NoMemory);
        };
        let text = joined(alloc, path.keys())?;
        Ok(ChildPath { path, text })
    }
}

// The text of these keys, a slash between any two.
fn joined(alloc: Global, keys: &[Key]) -> Result<String, NoMemory>
    ensures { IfOk result (λ text. string_bytes text ≡ joined keys.now) }
{
    let mut text = String::new(alloc);
    for (i, key) in keys.iter().enumerate() {
        if i > 0 {
            text.push('/')?;
        }
        text.push_str(key.text())?;
    }
    Ok(text)
}
