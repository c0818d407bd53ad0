//! Where the members of a text's objects and lists are written.
//!
//! These are candidates: nothing is promised of them, and what is named in a rules file is checked before.

use json::{Reader, Scratch, Token};
use json_tree::NoMemory;
use std::alloc::Global;

/// A member of an object, or of a list where these are asked for. It stands in the object or the list that the text
/// is, or below it.
#[derive(Clone, Copy, Debug)]
pub(crate) struct Spot {
    /// The member whose value has it, by its index; none where that is the text.
    pub(crate) parent: Option<usize>,
    /// The byte where its name begins; of a member of a list, which has no name, where its value begins.
    pub(crate) name: usize,
    /// The byte where its value begins.
    pub(crate) value: usize,
}

impl Spot {
    /// Whether it is a member of a list.
    pub(crate) fn is_in_list(self) -> bool {
        self.name == self.value
    }
}

// An object or an array that is open: the member whose value it is, if it is one.
#[derive(Clone, Copy)]
struct Level {
    is_object: bool,
    member: Option<usize>,
}

/// The members of all objects of a text that stand in objects alone, in the order in which they are written, up to the
/// first place where it is not JSON.
pub(crate) fn spots(alloc: Global, text: &str) -> Result<Vec<Spot>, NoMemory> {
    found_spots(alloc, text, false)
}

/// The members of all objects and lists of a text, in the same way.
pub(crate) fn spots_in_all(alloc: Global, text: &str) -> Result<Vec<Spot>, NoMemory> {
    found_spots(alloc, text, true)
}

fn found_spots(alloc: Global, text: &str, has_lists: bool) -> Result<Vec<Spot>, NoMemory> {
    let mut scratch = Scratch::new(alloc);
    let mut found = Found {
        spots: Vec::new(alloc),
        levels: Vec::new(alloc),
        name: None,
        has_lists,
    };
    let Ok(mut reader) = Reader::new(text, &mut scratch) else {
        return Err(NoMemory);
    };
    for _ in 0..=text.len() {
        let place = reader.offset();
        match reader.next() {
            Some(token) => found.take(&token, place)?,
            None => break,
        }
    }
    Ok(found.spots)
}

// What was found in a front of the text.
#[derive(Drop)]
struct Found {
    spots: Vec<Spot>,
    levels: Vec<Level>,
    // Where the name begins whose value comes next.
    name: Option<usize>,
    // Whether members of lists are taken too.
    has_lists: bool,
}

impl Found {
    fn take(&mut self, token: &Token<'_>, place: usize) -> Result<(), NoMemory> {
        match token {
            Token::Key(_) => {
                self.name = Some(place);
                Ok(())
            }
            Token::BeginObject => self.open(true, place),
            Token::BeginArray => self.open(false, place),
            Token::EndObject | Token::EndArray => {
                let _closed = self.levels.pop();
                Ok(())
            }
            Token::Bad => Ok(()),
            _ => {
                let _member = self.member(place)?;
                Ok(())
            }
        }
    }

    fn open(&mut self, is_object: bool, place: usize) -> Result<(), NoMemory> {
        let member = self.member(place)?;
        self.levels.push(Level { is_object, member })?;
        Ok(())
    }

    // Notes the member whose value begins here, and gives its index: none where it is not taken.
    fn member(&mut self, place: usize) -> Result<Option<usize>, NoMemory> {
        let named = self.name.take();
        let Some(level) = self.levels.last().copied() else {
            return Ok(None);
        };
        if !self.takes(level) {
            return Ok(None);
        }
        let name = if level.is_object { named } else { Some(place) };
        let Some(name) = name else {
            return Ok(None);
        };
        let index = self.spots.len();
        self.spots.push(Spot {
            parent: level.member,
            name,
            value: place,
        })?;
        Ok(Some(index))
    }

    // Whether the members of what is open are taken: not where it is a list, or stands in one that was not taken.
    fn takes(&self, level: Level) -> bool {
        (level.is_object || self.has_lists) && (level.member.is_some() || self.levels.len() <= 1)
    }
}

/// The byte behind the text in quotes that begins at a place.
pub(crate) fn end_of_quoted(text: &[u8], from: usize) -> usize {
    let Some((_, behind)) = text.split_at_checked(from.saturating_add(1)) else {
        return text.len();
    };
    let mut is_escaped = false;
    for (length, byte) in behind.iter().enumerate() {
        if is_escaped {
            is_escaped = false;
        } else if *byte == b'\\' {
            is_escaped = true;
        } else if *byte == b'"' {
            return from.saturating_add(length).saturating_add(2);
        }
    }
    text.len()
}
