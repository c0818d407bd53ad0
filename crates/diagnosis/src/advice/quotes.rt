//! Where a text of a rule stands in quotes, and what stands around a place of it.

/// Whether a place stands in quotes, once each byte before it was taken.
#[derive(Clone, Copy)]
pub(super) struct Quotes {
    open: Option<u8>,
    is_escaped: bool,
}

impl Quotes {
    pub(super) fn new() -> Quotes {
        Quotes {
            open: None,
            is_escaped: false,
        }
    }

    /// The quotes behind these bytes.
    pub(super) fn behind(bytes: &[u8]) -> Quotes {
        let mut quotes = Quotes::new();
        for byte in bytes {
            quotes.take(*byte);
        }
        quotes
    }

    /// The quote that is open.
    pub(super) fn open(self) -> Option<u8> {
        self.open
    }

    pub(super) fn take(&mut self, byte: u8) {
        if self.is_escaped {
            self.is_escaped = false;
            return;
        }
        match self.open {
            Some(_) if byte == b'\\' => self.is_escaped = true,
            Some(quote) => if byte == quote {
                self.open = None;
            },
            None => if matches!(byte, b'\'' | b'"') {
                self.open = Some(byte);
            },
        }
    }
}

pub(super) fn is_space(byte: u8) -> bool {
    matches!(byte, b' ' | b'\n' | b'\r' | b'\t')
}

/// Whether a byte may stand in a name.
pub(super) fn is_of_name(byte: u8) -> bool {
    byte == b'_' || byte.is_ascii_alphanumeric()
}

/// The last of these bytes that is not a space.
pub(super) fn last_word(bytes: &[u8]) -> Option<u8> {
    for byte in bytes.iter().rev() {
        if !is_space(*byte) {
            return Some(*byte);
        }
    }
    None
}

/// The bytes up to the last that is not a space.
pub(super) fn trimmed(bytes: &[u8]) -> &[u8] {
    let spaces = bytes
        .iter()
        .rev()
        .take_while(|byte| is_space(**byte))
        .count();
    let end = bytes.len().saturating_sub(spaces);
    bytes.split_at_checked(end).map_or(bytes, |parts| parts.0)
}

/// The name with which these bytes begin.
pub(super) fn first_name(bytes: &[u8]) -> &[u8] {
    let length = bytes.iter().take_while(|byte| is_of_name(**byte)).count();
    bytes
        .split_at_checked(length)
        .map_or(bytes, |parts| parts.0)
}

/// The name with which these bytes end, spaces aside.
pub(super) fn last_name(bytes: &[u8]) -> &[u8] {
    let bytes = trimmed(bytes);
    let length = bytes
        .iter()
        .rev()
        .take_while(|byte| is_of_name(**byte))
        .count();
    let begin = bytes.len().saturating_sub(length);
    bytes.split_at_checked(begin).map_or(bytes, |parts| parts.1)
}

/// Whether an operand ends here.
pub(super) fn ends_operand(front: &[u8]) -> bool {
    match last_word(front) {
        Some(byte) => is_of_name(byte) || matches!(byte, b')' | b']' | b'\'' | b'"'),
        None => false,
    }
}

/// What stands before a byte and from it on, where it first stands outside of quotes, and not behind one of others.
pub(super) fn around_sign<'t>(
    text: &'t [u8],
    sign: u8,
    others: &[u8],
) -> Option<(&'t [u8], &'t [u8])> {
    let mut quotes = Quotes::new();
    for (place, byte) in text.iter().enumerate() {
        let (front, rest) = text.split_at_checked(place)?;
        if *byte == sign && quotes.open().is_none() {
            let before = last_word(front);
            if !before.is_some_and(|it| others.contains(&it)) {
                return Some((front, rest));
            }
        }
        quotes.take(*byte);
    }
    None
}
