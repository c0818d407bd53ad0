//! A key, with its place in the order of a list's keys.
ghost use Rattle.std.specs.Prelude.{◌≡◌, Option};
ghost use Rattle.listeners.specs.Order.{numbered_cmp, length_cmp};
ghost use Rattle.listeners.specs.Working.Items.{key_seen};
ghost use Rattle.listeners.specs.Working.Ranks.{keyed, keyed_cmp};

use crate::number::number_of;
use std::cmp::Ordering;

// A key, and the number of 32 bits that it is, if it is one. So a key is read once, however often it is
// compared.
#[derive(Clone, Copy)]
pub(crate) struct ListKey<'a> {
    pub(crate) number: Option<i32>,
    pub(crate) text: &'a str,
}

impl<'a> ListKey<'a> {
    pub(crate) fn new(text: &'a str) -> ListKey<'a>
        ensures { key_seen result ≡ keyed text.now }
    {
        ListKey {
            number: number_of(text),
            text,
        }
    }

    // Keys that are numbers come first, by number, those of one number by their lengths and then by their
    // bytes; all others by their bytes.
    pub(crate) fn compare(&self, other: &ListKey<'_>) -> Ordering
        ensures { result ≡ keyed_cmp (key_seen self.now) (key_seen other.now) }
    {
        compare_numbers(self.number, other.number)
            .then(compare_lengths(self.number, self.text, other.text))
            .then(self.text.cmp(other.text))
    }
}

fn compare_numbers(number: Option<i32>, other: Option<i32>) -> Ordering
    ensures { result ≡ numbered_cmp number other }
{
    match (number, other) {
        (Some(number), Some(other)) => number.cmp(&other),
        (Some(_), None) => Ordering::Less,
        (None, Some(_)) => Ordering::Greater,
        (None, None) => Ordering::Equal,
    }
}

fn compare_lengths(number: Option<i32>, key: &str, other: &str) -> Ordering
    ensures { result ≡ length_cmp number key.now other.now }
{
    match number {
        Some(_) => key.len().cmp(&other.len()),
        None => Ordering::Equal,
    }
}
