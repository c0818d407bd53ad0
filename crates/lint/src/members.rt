//! The members of a rules file that is accepted, as they are written.
//!
//! These are candidates: nothing is promised of them, and what is named is looked up before.

use json::{Reader, Scratch, Token};
use json_tree::NoMemory;
use std::alloc::Global;
use std::collections::BTreeMap;

/// The members of all objects of a text, in the order in which they are written.
#[derive(Drop)]
pub(crate) struct Outline {
    alloc: Global,
    spots: Vec<Spot>,
}

// A member.
#[derive(Drop)]
struct Spot {
    // The member whose value has it, by its index; none where that is the text.
    parent: Option<usize>,
    name: String,
    // Where its name begins.
    byte: usize,
    // Whether a later member counts in its place, or in that of one above it.
    is_gone: bool,
}

// The deepest member has the name `rules`, the parts of a pattern, and its own.
const MOST_NAMES: usize = 34;

impl Outline {
    /// The members of a text that is JSON. It goes over the text once, and takes two growths for each member and its
    /// name in a map.
    pub(crate) fn read(alloc: Global, text: &str) -> Result<Outline, NoMemory> {
        let mut scratch = Scratch::new(alloc);
        let mut reading = Reading {
            alloc,
            spots: Vec::new(alloc),
            open: Vec::new(alloc),
            last: None,
            named: BTreeMap::new(alloc),
        };
        let Ok(mut reader) = Reader::new(text, &mut scratch) else {
            return Err(NoMemory);
        };
        for _ in 0..=text.len() {
            let place = reader.offset();
            match reader.next() {
                Some(token) => reading.take(&token, place)?,
                None => break,
            }
        }
        Ok(Outline {
            alloc,
            spots: with_all_gone(reading.spots),
        })
    }

    /// How many there are.
    pub(crate) fn len(&self) -> usize {
        self.spots.len()
    }

    /// The name of a member that counts, and the byte where it begins.
    pub(crate) fn name(&self, index: usize) -> Option<(&str, usize)> {
        let spot = self.spots.get(index)?;
        if spot.is_gone {
            return None;
        }
        Some((spot.name.as_str(), spot.byte))
    }

    /// The names that lead from the object under `rules` to the object that has a member; none for `rules` itself.
    pub(crate) fn names_above(&self, index: usize) -> Result<Option<Vec<String>>, NoMemory> {
        match self.spots.get(index).and_then(|spot| spot.parent) {
            Some(parent) => Ok(Some(self.names_to(parent)?)),
            None => Ok(None),
        }
    }

    /// The names that lead to the object that a member is.
    pub(crate) fn names_to(&self, index: usize) -> Result<Vec<String>, NoMemory> {
        let mut names = Vec::new(self.alloc);
        let mut at = Some(index);
        for _ in 0..MOST_NAMES {
            let Some(spot) = at.and_then(|it| self.spots.get(it)) else {
                break;
            };
            if spot.parent.is_none() {
                break;
            }
            names.push(String::from_str(self.alloc, spot.name.as_str())?)?;
            at = spot.parent;
        }
        names.reverse();
        Ok(names)
    }
}

// What was read of a front of a text.
#[derive(Drop)]
struct Reading {
    alloc: Global,
    spots: Vec<Spot>,
    // The objects and lists that are open: the member whose value each is.
    open: Vec<Option<usize>>,
    // The member whose value comes next.
    last: Option<usize>,
    // The last member of each name of each object.
    named: BTreeMap<String, usize>,
}

impl Reading {
    fn take(&mut self, token: &Token<'_>, place: usize) -> Result<(), NoMemory> {
        match token {
            Token::Key(name) => self.note(name, place),
            Token::BeginObject | Token::BeginArray => {
                self.open.push(self.last.take())?;
                Ok(())
            }
            Token::EndObject | Token::EndArray => {
                let _closed = self.open.pop();
                Ok(())
            }
            _ => {
                self.last = None;
                Ok(())
            }
        }
    }

    // Notes a member of the object that is open.
    fn note(&mut self, name: &str, byte: usize) -> Result<(), NoMemory> {
        let parent = self.open.last().copied().and_then(|it| it);
        let index = self.spots.len();
        let object = parent.map_or(0, |it| it.saturating_add(1));
        let label = format!(in self.alloc; "{object}/{name}")?;
        if let Some(earlier) = self.named.insert(label, index)? {
            if let Some(spot) = self.spots.get_mut(earlier) {
                spot.is_gone = true;
            }
        }
        self.spots.push(Spot {
            parent,
            name: String::from_str(self.alloc, name)?,
            byte,
            is_gone: false,
        })?;
        self.last = Some(index);
        Ok(())
    }
}

// The members, of which those below one that is gone are gone too.
fn with_all_gone(mut spots: Vec<Spot>) -> Vec<Spot> {
    for index in 0..spots.len() {
        let parent = spots.get(index).and_then(|spot| spot.parent);
        let is_gone = parent
            .and_then(|it| spots.get(it))
            .is_some_and(|above| above.is_gone);
        if let Some(spot) = spots.get_mut(index) {
            spot.is_gone = spot.is_gone || is_gone;
        }
    }
    spots
}
