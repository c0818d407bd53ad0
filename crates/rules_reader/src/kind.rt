//! What a rule is for.
ghost use Rattle.std.specs.Prelude.{◌≡◌};
ghost use Rattle.rules_reader.specs.Book.{kind_name};
ghost use Rattle.rules_reader.specs.Spelled.{place_of};

use expr_types::Place;

/// What a rule is for. (Reference, rules types.)
#[derive(Clone, Copy, Debug, PartialEq, Eq)]
pub enum Kind {
    /// `.read`
    Read,
    /// `.write`
    Write,
    /// `.validate`
    Validate,
}

impl Kind {
    /// The name of such a rule in a rules file.
    pub fn name(self) -> &'static str
        ensures { result.now ≡ kind_name self }
    {
        match self {
            Kind::Read => ".read",
            Kind::Write => ".write",
            Kind::Validate => ".validate",
        }
    }

    /// The place of its expression.
    pub fn place(self) -> Place
        ensures { result ≡ place_of self }
    {
        match self {
            Kind::Read => Place::ReadRule,
            Kind::Write => Place::WriteRule,
            Kind::Validate => Place::ValidateRule,
        }
    }
}
