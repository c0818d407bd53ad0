//! The members of a file that is JSON, as they are written.

use crate::spots::{Spot, end_of_quoted};
use json_tree::NoMemory;
use serde_json::Value;
use std::alloc::Global;

/// A text that is JSON, and where its members are written.
#[derive(Drop)]
pub(crate) struct Outline<'a> {
    pub(crate) alloc: Global,
    pub(crate) text: &'a [u8],
    pub(crate) spots: Vec<Spot>,
}

// The most objects and lists that stand in one another: more than JSON may have.
const MOST_NESTED: usize = 128;

impl<'a> Outline<'a> {
    /// The place of the first byte of the text that is not a space.
    pub(crate) fn top(&self) -> usize {
        self.text
            .iter()
            .position(|byte| !is_space(*byte))
            .unwrap_or(0)
    }

    /// The text, the number, the truth value or the null that is written from a place on; none where an object or a
    /// list is.
    pub(crate) fn primitive(&self, from: usize) -> Result<Option<Value>, NoMemory> {
        match self.written(from) {
            Some([b'{' | b'[', ..]) | None => Ok(None),
            Some(bytes) => match Value::from_slice(self.alloc, bytes) {
                Ok(value) => Ok(Some(value)),
                Err(error) => if error.is_memory() {
                    Err(NoMemory)
                } else {
                    Ok(None)
                },
            },
        }
    }

    /// The bytes of what is written from a place on; of an object or a list the rest of the text.
    pub(crate) fn written(&self, from: usize) -> Option<&'a [u8]> {
        let (_, rest) = self.text.split_at_checked(from)?;
        let length = match rest {
            [b'"', ..] => end_of_quoted(self.text, from).saturating_sub(from),
            [b'{' | b'[', ..] => rest.len(),
            _ => rest
                .iter()
                .position(|byte| is_space(*byte) || matches!(*byte, b',' | b']' | b'}'))
                .unwrap_or(rest.len()),
        };
        Some(rest.split_at_checked(length)?.0)
    }

    /// The name of a member of an object.
    pub(crate) fn name(&self, spot: Spot) -> Result<Option<String>, NoMemory> {
        if spot.is_in_list() {
            return Ok(None);
        }
        match self.primitive(spot.name)? {
            Some(Value::String(name)) => Ok(Some(name)),
            _ => Ok(None),
        }
    }

    /// How many names stand above what a member has, its own too, where a member of a list has its number for a name.
    pub(crate) fn depth(&self, index: usize) -> usize {
        let mut at = Some(index);
        for depth in 0..MOST_NESTED {
            let Some(spot) = at.and_then(|it| self.spots.get(it)) else {
                return depth;
            };
            at = spot.parent;
        }
        MOST_NESTED
    }

    /// A member and those above it, itself first.
    pub(crate) fn above(&self, index: usize) -> Result<Vec<usize>, NoMemory> {
        let mut indices = Vec::new(self.alloc);
        let mut at = Some(index);
        for _ in 0..MOST_NESTED {
            let Some(own) = at else {
                break;
            };
            indices.push(own)?;
            at = self.spots.get(own).and_then(|spot| spot.parent);
        }
        Ok(indices)
    }

    /// Whether something else counts in the place of a member: a later one of the same object has its name, or that of
    /// one above it.
    pub(crate) fn is_gone(&self, index: usize) -> Result<bool, NoMemory> {
        for above in self.above(index)?.iter() {
            if self.has_later(*above)? {
                return Ok(true);
            }
        }
        Ok(false)
    }

    fn has_later(&self, index: usize) -> Result<bool, NoMemory> {
        let Some(own) = self.spots.get(index) else {
            return Ok(false);
        };
        let Some(name) = self.name(*own)? else {
            return Ok(false);
        };
        for spot in self.spots.iter().skip(index.saturating_add(1)) {
            if spot.parent == own.parent && self.is_named(*spot, name.as_str())? {
                return Ok(true);
            }
        }
        Ok(false)
    }

    fn is_named(&self, spot: Spot, name: &str) -> Result<bool, NoMemory> {
        Ok(self.name(spot)?.is_some_and(|it| it.as_str() == name))
    }

    /// The path of the object or the list that has a member, as it is shown: names and numbers behind slashes.
    pub(crate) fn path_above(&self, index: usize) -> Result<String, NoMemory> {
        let above = self.spots.get(index).and_then(|spot| spot.parent);
        match above {
            Some(above) => self.path(above),
            None => Ok(String::from_str(self.alloc, "/")?),
        }
    }

    /// The path of a member, as it is shown.
    pub(crate) fn path(&self, index: usize) -> Result<String, NoMemory> {
        let mut path = String::new(self.alloc);
        for at in self.above(index)?.iter().rev() {
            path.push('/')?;
            if path.len() > SHOWN {
                path.push_str("..")?;
                return Ok(path);
            }
            self.append_name(*at, &mut path)?;
        }
        Ok(path)
    }

    // Appends the name of a member, or its number in its list.
    fn append_name(&self, index: usize, path: &mut String) -> Result<(), NoMemory> {
        let Some(spot) = self.spots.get(index) else {
            return Ok(());
        };
        match self.name(*spot)? {
            Some(name) => append_short(name.as_str(), SHOWN_OF_A_NAME, path),
            None => {
                let number = self.number_in_list(index, *spot);
                path.push_str(format!(in self.alloc; "{number}")?.as_str())?;
                Ok(())
            }
        }
    }

    // How many members of the same list stand before a member.
    fn number_in_list(&self, index: usize, spot: Spot) -> usize {
        self.spots
            .iter()
            .take(index)
            .filter(|other| other.parent == spot.parent)
            .count()
    }
}

// How many bytes of a path are shown, about.
const SHOWN: usize = 100;

/// How many characters of a name are shown.
pub(crate) const SHOWN_OF_A_NAME: usize = 40;

/// Appends so many characters of some words at most, and two dots where there are more.
pub(crate) fn append_short(words: &str, most: usize, text: &mut String) -> Result<(), NoMemory> {
    for (count, c) in words.chars().enumerate() {
        if count >= most {
            text.push_str("..")?;
            return Ok(());
        }
        text.push(c)?;
    }
    Ok(())
}

fn is_space(byte: u8) -> bool {
    matches!(byte, b' ' | b'\n' | b'\r' | b'\t')
}
