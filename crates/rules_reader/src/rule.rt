//! The rules of one object of a rules file.
ghost use Rattle.std.specs.Prelude.{◌≡◌, is_some, option_map};
ghost use Rattle.rules_reader.specs.Book.{stated_for};

use crate::kind::Kind;
use expr_types::Checked;
use std::marker::Model;

/// The rules that stand with one pattern: what `.read`, `.write` and `.validate` state, where they
/// do. (Reference, rules types.)
#[derive(Debug, Drop)]
pub(crate) struct RuleSet {
    read: Option<Checked>,
    write: Option<Checked>,
    validate: Option<Checked>,
}

impl Model for RuleSet {
    ghost use Rattle.expr_types.specs.Checked.{Checked, checked_code};
    ghost use Rattle.rules_reader.specs.Book.{Stated, stated_code};

    ghost Value = { Stated Checked };

    ghost coded = { stated_code checked_code };

    ghost view = { λ rules. record { read = rules.read; write = rules.write; validate = rules.validate } };
}

impl RuleSet {
    /// The set of these rules.
    pub(crate) fn new(
        read: Option<Checked>,
        write: Option<Checked>,
        validate: Option<Checked>,
    ) -> RuleSet
        ensures { result ≡ record { read = read; write = write; validate = validate } }
    {
        RuleSet {
            read,
            write,
            validate,
        }
    }

    /// Whether a `.validate` is stated.
    pub(crate) fn has_validate(&self) -> bool
        ensures { result ≡ is_some self.now.validate }
    {
        self.validate.is_some()
    }

    /// The rule of a kind, if it is stated.
    pub(crate) fn rule(&self, kind: Kind) -> Option<&Checked>
        ensures { option_map (λ rule. rule.now) result ≡ stated_for kind self.now }
    {
        match kind {
            Kind::Read => self.read.as_ref(),
            Kind::Write => self.write.as_ref(),
            Kind::Validate => self.validate.as_ref(),
        }
    }
}
