//! Who takes the entries of a file, and how a text is cut into them.
ghost use Rattle.std.specs.Prelude.{◌≡◌, ◌<◌, ◌^◌, ◌++◌, ◌∷◌, [], ℕ, List, length, OnOk, OnErr, IfSome, IfNone, IsErrOf};
ghost use Rattle.std.specs.List.{AllByRecursion};
ghost use Rattle.journal.specs.Format.{entry_text, entries_text};
ghost use Rattle.journal.specs.Recovery.{Begins, IsNoText};
ghost use Rattle.journal.specs.Sinks.{HandsOn};

use crate::limits::LENGTH_DIGITS;
use crate::text::number_in;

/// The one who takes the entries wants no more.
#[derive(Clone, Copy, Debug, PartialEq, Eq)]
pub struct Stopped;

/// Takes the entries of a file, one after another.
pub trait Sink {
    /// It has taken these entries.
    ghost taken: { Self → List (List ℕ) → Type 0 };

    /// It has taken these entries but the last, of which it wants no more.
    ghost refused: { Self → List (List ℕ) → Type 0 };

    /// Takes one entry more.
    fn take(&mut self, entry: &[u8]) -> Result<(), Stopped>
        ensures taken { OnOk result (HandsOn taken taken self.old self.new (entry.now ∷ [])) }
        ensures refused { OnErr result (HandsOn taken refused self.old self.new (entry.now ∷ [])) };
}

/// Why the entries of a text were not all handed over.
#[derive(Clone, Copy, Debug, PartialEq, Eq)]
pub(crate) enum HandOverFault {
    /// What stands there is no entry.
    NoEntry,
    Stopped,
}

/// The first entry of a text, and what is behind it.
fn first_entry(text: &[u8]) -> Option<(&[u8], &[u8])>
    ensures entry { IfSome result (λ parts. text.now ≡ entry_text parts.0.now ++ parts.1.now) }
    ensures small { IfSome result (λ parts. length parts.0.now < 10 ^ 8) }
    ensures shorter { IfSome result (λ parts. length parts.1.now < length text.now) }
    ensures none { IfNone result ((entry more : List ℕ) → length entry < 10 ^ 8 → text.now ≡ entry_text entry ++ more → ⊥) }
{
    if text.len() < 10 {
        return None;
    }
    let len = number_in(&text[..LENGTH_DIGITS])? as usize;
    if len > text.len() - 10 {
        return None;
    }
    if text[8] != b' ' {
        return None;
    }
    if text[9 + len] != b'\n' {
        return None;
    }
    Some((&text[9..9 + len], &text[10 + len..]))
}

/// Hands over the entries of a text, all of them.
pub(crate) fn hand_over<S: Sink>(text: &[u8], sink: &mut S) -> Result<(), HandOverFault>
    ensures stopped { IsErrOf result HandOverFault.Stopped → (entries : List (List ℕ)) × HandsOn S.taken S.refused sink.old sink.new entries × Begins (entries_text entries) text.now }
    ensures no_entry { IsErrOf result HandOverFault.NoEntry → IsNoText text.now }
    ensures taken { OnOk result ((entries : List (List ℕ)) × HandsOn S.taken S.taken sink.old sink.new entries × (text.now ≡ entries_text entries) × AllByRecursion (λ entry. length entry < 10 ^ 8) entries) }
{
    let mut rest = text;
    while !rest.is_empty() {
        let Some((entry, behind)) = first_entry(rest) else {
            return Err(HandOverFault::NoEntry);
        };
        match sink.take(entry) {
            Ok(()) => rest = behind,
            Err(Stopped) => return Err(HandOverFault::Stopped),
        }
    }
    Ok(())
}
