//! Why a text is no rules file.
ghost use Rattle.std.specs.Prelude.{◌≡◌};
ghost use Rattle.rules_reader.specs.declared.fault.RulesFault.TheVariants.{NoMemory as no_memory};

use crate::kind::Kind;
use expr_parser::Excluded;
use expr_types::FaultyName;
use json_tree::NoMemory;
use path_capture::Pattern;
use thiserror::Error;

/// Why a text is no rules file: the first of these that applies, in this order, but for want of
/// memory, which may come in the place of any, unless the text is too long.
#[derive(Debug, Drop, Error)]
pub enum RulesFault {
    /// The text has over 1,048,576 bytes, or is no JSON.
    #[error("no JSON, or too long")]
    BadRulesJson,
    /// An object may not stand at this pattern, the least of such; a fault of the top counts as one
    /// of the empty pattern.
    #[error("not the shape of a rules file")]
    BadRulesShape(Pattern),
    /// There are over 4,096 rules.
    #[error("more than 4096 rules")]
    TooManyRules,
    /// The text of a rule is invalid, the first such by pattern, and at one pattern `.read`, `.validate`,
    /// `.write`.
    #[error("{} is no rule: {}", .0.kind.name(), .1)]
    BadRule(RuleName, RuleFault),
    #[error("out of memory")]
    NoMemory,
}

impl From<NoMemory> for RulesFault {
    ghost from_gives = { λ _ fault. fault ≡ no_memory };

    fn from(_refused: NoMemory) -> RulesFault {
        RulesFault::NoMemory
    }
}

/// Which rule of a file.
#[derive(Debug, Drop)]
pub struct RuleName {
    pub pattern: Pattern,
    pub kind: Kind,
}

/// Why a text is no rule where it stands.
#[derive(Debug, Drop, Error)]
pub enum RuleFault {
    /// The text is no expression, which shows at this byte of it. Places are those of UTF-8, from 0.
    #[error("no expression at byte {byte}")]
    BadExpression { byte: usize },
    /// The rules language has this, and the project's profile leaves it out.
    #[error("`{}` is not in the profile", .0.name())]
    NotInProfile(LeftOut),
    /// Something stands where another sort is wanted.
    #[error("a value of another sort is wanted")]
    TypeError,
    /// There is no such name where it stands.
    #[error("`{}` is no name here", .0.as_str())]
    UnknownName(FaultyName),
}

/// What of the rules language the profile leaves out.
#[derive(Debug, Drop)]
pub enum LeftOut {
    Sign(Excluded),
    Name(FaultyName),
}

impl LeftOut {
    ghost use Rattle.rules_reader.specs.Refusal.{left_out_name};

    /// What a report calls it.
    pub fn name(&self) -> &str
        ensures { result.now ≡ left_out_name self.now }
    {
        match self {
            LeftOut::Sign(excluded) => excluded.name(),
            LeftOut::Name(name) => name.as_str(),
        }
    }
}
