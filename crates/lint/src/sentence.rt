//! A finding as a sentence for a person.

use crate::finding::{Demand, Finding, Member, Reason};
use json_tree::NoMemory;
use std::alloc::Global;

impl Finding {
    /// The finding as one sentence, without a full stop. It takes a growth or two for each part.
    pub fn sentence(&self, alloc: Global) -> Result<String, NoMemory> {
        let (name, pattern) = (self.member.name(), self.pattern.as_str());
        match &self.reason {
            Reason::GrantedAbove(above) => Ok(format!(in alloc;
                "`{name}` at {pattern} can't matter: `{name}` at {} is true, and what is granted there is granted below it too",
                above.as_str()
            )?),
            Reason::TakesNothingBack(above) => Ok(format!(in alloc;
                "`{name}` at {pattern} is false, and takes nothing back of what `{name}` at {} grants",
                above.as_str()
            )?),
            Reason::GrantsNothing => Ok(format!(in alloc;
                "`{name}` at {pattern} is false, and without it nothing would be granted here either"
            )?),
            Reason::AsksForBoth(one, other) => Ok(format!(in alloc;
                "`{name}` at {pattern} never holds: it asks for {} and for {} in the same place",
                one.words(),
                other.words()
            )?),
            Reason::AsksForRefused(child, refused) => Ok(format!(in alloc;
                "`{name}` at {pattern} asks for the child `{}`, which no write can bring: `{name}` at {} is false",
                child.as_str(),
                refused.as_str()
            )?),
            Reason::IsIgnored => Ok(format!(in alloc;
                "`{name}` at {pattern} has no effect: this database ignores it"
            )?),
            Reason::IsUnused(capture) => Ok(format!(in alloc;
                "no rule at {pattern} or below it uses `${}`",
                capture.as_str()
            )?),
        }
    }
}

impl Member {
    /// How such a member is called: a rule and an index by their name in a rules file.
    pub fn name(self) -> &'static str {
        match self {
            Member::Rule(kind) => kind.name(),
            Member::Index => ".indexOn",
            Member::Capture => "capture",
        }
    }
}

impl Demand {
    /// What is asked for, in words.
    pub fn words(self) -> &'static str {
        match self {
            Demand::IsString => "a text",
            Demand::IsNumber => "a number",
            Demand::IsBoolean => "a boolean",
            Demand::HasChildren => "children",
        }
    }
}
