//! The members of the objects of a text that is JSON, in the order in which they are written.

use json::{Reader, Scratch, Token};
use json_tree::NoMemory;
use std::alloc::Global;
use std::collections::BTreeMap;
use tree_model::MAX_DEPTH;

/// A member of an object.
#[derive(Clone, Copy)]
pub(crate) struct Member<'a> {
    /// The member in which its object stands, by its index; none where that is the text.
    pub(crate) parent: Option<usize>,
    pub(crate) name: &'a str,
    /// The byte where its value begins.
    pub(crate) place: usize,
    /// What its value says, if it is a text or a truth value.
    pub(crate) said: Option<&'a str>,
    /// Whether a later member of the same object has its name, and counts in its place.
    pub(crate) is_replaced: bool,
}

/// The members of all objects of a text, up to the first place where it is not JSON. It goes over the text once, and
/// looks each name up among those before it.
pub(crate) fn members<'a>(
    alloc: Global,
    text: &'a str,
    scratch: &'a mut Scratch,
) -> Result<Vec<Member<'a>>, NoMemory> {
    let mut found = Found {
        members: Vec::new(alloc),
        latest: BTreeMap::new(alloc),
        open: Vec::new(alloc),
        name: None,
    };
    let mut reader = Reader::new(text, scratch)?;
    for _ in 0..=text.len() {
        let place = reader.offset();
        match reader.next() {
            Some(token) => found.take(token, place)?,
            None => break,
        }
    }
    Ok(found.members)
}

// What was found in a front of a text.
#[derive(Drop)]
struct Found<'a> {
    members: Vec<Member<'a>>,
    // The last member of each name in an object, which is named by the member in which it stands.
    latest: BTreeMap<(Option<usize>, &'a str), usize>,
    // Of each object and list that is open the member in which it stands.
    open: Vec<Option<usize>>,
    // The name whose value comes next.
    name: Option<&'a str>,
}

impl<'a> Found<'a> {
    fn take(&mut self, token: Token<'a>, place: usize) -> Result<(), NoMemory> {
        match token {
            Token::Key(name) => self.name = Some(name),
            Token::BeginObject | Token::BeginArray => self.begin(place)?,
            Token::EndObject | Token::EndArray => {
                let _ended = self.open.pop();
            }
            Token::String(text) => self.add(place, Some(text))?,
            Token::Bool(true) => self.add(place, Some("true"))?,
            Token::Bool(false) => self.add(place, Some("false"))?,
            Token::Number(_) | Token::Null | Token::Bad => self.add(place, None)?,
        }
        Ok(())
    }

    // Takes the begin of an object or of a list. What stands in a list stands in the member that has the list.
    fn begin(&mut self, place: usize) -> Result<(), NoMemory> {
        let stands_in = match self.name {
            Some(_) => Some(self.members.len()),
            None => self.above(),
        };
        self.add(place, None)?;
        self.open.push(stands_in)?;
        Ok(())
    }

    // The member in which the innermost object or list stands that is open.
    fn above(&self) -> Option<usize> {
        match self.open.last() {
            Some(above) => *above,
            None => None,
        }
    }

    // Adds the member whose value begins at a place, if it is that of one.
    fn add(&mut self, place: usize, said: Option<&'a str>) -> Result<(), NoMemory> {
        let Some(name) = self.name.take() else {
            return Ok(());
        };
        let parent = self.above();
        let index = self.members.len();
        self.members.push(Member {
            parent,
            name,
            place,
            said,
            is_replaced: false,
        })?;
        if let Some(earlier) = self.latest.insert((parent, name), index)? {
            self.replace(earlier);
        }
        Ok(())
    }

    fn replace(&mut self, index: usize) {
        if let Some(member) = self.members.get_mut(index) {
            member.is_replaced = true;
        }
    }
}

// The deepest member that counts has the name `rules`, the parts of a pattern and its own.
const MOST_NAMES: usize = MAX_DEPTH + 2;

/// The names of a member and of those in which it stands, its own first; none where one of them does not count.
pub(crate) fn names_up<'a>(
    alloc: Global,
    members: &[Member<'a>],
    index: usize,
) -> Result<Option<Vec<&'a str>>, NoMemory> {
    let mut names = Vec::new(alloc);
    let mut at = Some(index);
    for _ in 0..=MOST_NAMES {
        let Some(member) = at.and_then(|it| members.get(it)) else {
            return Ok(Some(names));
        };
        if member.is_replaced {
            return Ok(None);
        }
        names.push(member.name)?;
        at = member.parent;
    }
    Ok(None)
}
