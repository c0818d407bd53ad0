//! From a rules file to where its rules are written.

use crate::members::{members, names_up};
use crate::source::RuleSource;
use crate::spot::Spot;
use json::Scratch;
use json_tree::NoMemory;
use rules_reader::{Kind, RulesFault, compile, plain};
use std::alloc::Global;

/// Where the rules of a file are written, in the order of the file; none where the file is not accepted. Members that
/// do not count, since a later one has their name, are no rules.
///
/// It compiles the file, and then goes over it four times, with a look-up of each name among those before it. While it
/// does, a few words are kept for each member; of each rule the text stays, and three words at most for each of its
/// bytes.
pub fn rule_sources(alloc: Global, file: &[u8]) -> Result<Vec<RuleSource>, NoMemory> {
    match compile(alloc, file) {
        Ok(_) => sources_of(alloc, file),
        Err(RulesFault::NoMemory) => Err(NoMemory),
        Err(_) => Ok(Vec::new(alloc)),
    }
}

// The rules of a file that is accepted.
fn sources_of(alloc: Global, file: &[u8]) -> Result<Vec<RuleSource>, NoMemory> {
    let plain = plain(alloc, file)?;
    let mut sources = Vec::new(alloc);
    let Ok(text) = str::from_utf8(&plain) else {
        return Ok(sources);
    };
    let mut scratch = Scratch::new(alloc);
    let members = members(alloc, text, &mut scratch)?;
    let mut spot = Spot::first();
    for (index, member) in members.iter().enumerate() {
        let (Some(kind), Some(said)) = (kind_of(member.name), member.said) else {
            continue;
        };
        let Some(names) = names_up(alloc, &members, index)? else {
            continue;
        };
        spot = spot.moved(file, member.place);
        let pattern = pattern_text(alloc, &names)?;
        sources.push(RuleSource::new(alloc, file, spot, pattern, kind, said)?)?;
    }
    Ok(sources)
}

// The kind of rule of this name.
fn kind_of(name: &str) -> Option<Kind> {
    match name {
        ".read" => Some(Kind::Read),
        ".write" => Some(Kind::Write),
        ".validate" => Some(Kind::Validate),
        _ => None,
    }
}

// The text of the pattern of the object that has a member, of the names of the member and of those in which it stands.
// These end with `rules`.
fn pattern_text(alloc: Global, names: &[&str]) -> Result<String, NoMemory> {
    let mut text = String::new(alloc);
    if let [_own, parts @ .., _rules] = names {
        for part in parts.iter().rev() {
            text.push('/')?;
            text.push_str(part)?;
        }
    }
    if text.is_empty() {
        text.push('/')?;
    }
    Ok(text)
}
