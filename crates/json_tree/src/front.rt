//! The front of a text: what mostly distinguishes it from another, without a look at the text.
ghost use Rattle.std.specs.Prelude.{◌≡◌, ◌<◌, true};
ghost use Rattle.std.specs.Int.{w64, from_be_bytes};
ghost use Rattle.std.specs.Ordering.{nat_cmp};
ghost use Rattle.json_tree.specs.Working.Front.{IsFrontOf, IsTold};

use std::cmp::Ordering;
use std::marker::Model;

/// How many bytes a front has.
const FRONT_BYTES: usize = 8;

/// The first 8 bytes of a text as one number, the first of them the highest, where a byte that is not there
/// is 0. Texts whose fronts are not the same stand to each other as these.
#[derive(Clone, Copy, Debug)]
pub(crate) struct Front(u64);

/// A text that is sought among others, with its front.
#[derive(Debug, Drop)]
pub(crate) struct Sought<'a> {
    pub(crate) text: &'a str,
    pub(crate) front: Front,
    // Where it is true, a key with the same front is this text.
    pub(crate) is_told: bool,
}

impl Front {
    // The front of a text, in constant time.
    pub(crate) fn of(text: &str) -> Front
        ensures { IsFrontOf text.now result.0 }
    {
        Front(number_of(text.as_bytes()))
    }

    // Whether it stands before another.
    pub(crate) fn is_before(self, other: Front) -> bool
        ensures { result ≡ true → self.0 < other.0 }
    {
        self.0 < other.0
    }

    // Where it stands beside another.
    pub(crate) fn compare(self, other: Front) -> Ordering
        ensures { result ≡ nat_cmp self.0 other.0 }
    {
        self.0.cmp(&other.0)
    }
}

// The first bytes as one number, where one that is not there is 0. An arm for each length, so that its bytes are
// read together.
fn number_of(bytes: &[u8]) -> u64
    ensures { result ≡ from_be_bytes w64 bytes.now }
{
    match *bytes {
        [a, b, c, d, e, f, g, h, ..] => u64::from_be_bytes([a, b, c, d, e, f, g, h]),
        [a, b, c, d, e, f, g] => u64::from_be_bytes([a, b, c, d, e, f, g, 0]),
        [a, b, c, d, e, f] => u64::from_be_bytes([a, b, c, d, e, f, 0, 0]),
        [a, b, c, d, e] => u64::from_be_bytes([a, b, c, d, e, 0, 0, 0]),
        [a, b, c, d] => u64::from_be_bytes([a, b, c, d, 0, 0, 0, 0]),
        [a, b, c] => u64::from_be_bytes([a, b, c, 0, 0, 0, 0, 0]),
        [a, b] => u64::from_be_bytes([a, b, 0, 0, 0, 0, 0, 0]),
        [a] => u64::from_be_bytes([a, 0, 0, 0, 0, 0, 0, 0]),
        [] => 0,
    }
}

// Whether no key but this text has its front: the keys have no byte 0, so a front that ends with one has all of
// its key.
fn is_told(bytes: &[u8]) -> bool
    ensures { result ≡ true → IsTold bytes.now }
{
    let length = bytes.len();
    0 < length && length < FRONT_BYTES && bytes[length - 1] != 0
}

impl<'a> Model for Sought<'a> {
    ghost use Rattle.std.specs.Prelude.{ℕ, List};
    ghost use Rattle.json_tree.specs.Working.Front.{IsSought};

    ghost Value = { List ℕ };

    ghost view = { λ sought. sought.text.now };

    ghost invariant = { λ sought. IsSought sought.text.now sought.front.0 sought.is_told };
}

impl<'a> Sought<'a> {
    // A text to be sought, in constant time.
    pub(crate) fn of(text: &'a str) -> Sought<'a>
        ensures { result ≡ text.now }
    {
        Sought {
            text,
            front: Front::of(text),
            is_told: is_told(text.as_bytes()),
        }
    }
}
