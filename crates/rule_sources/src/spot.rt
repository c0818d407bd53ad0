//! Lines and columns.

/// A byte of a file, and where it stands for a person: lines and columns are from 1, and a column counts characters.
#[derive(Clone, Copy, Debug)]
pub(crate) struct Spot {
    pub(crate) byte: usize,
    pub(crate) line: usize,
    pub(crate) column: usize,
}

impl Spot {
    /// The first byte of a file.
    pub(crate) fn first() -> Spot {
        Spot {
            byte: 0,
            line: 1,
            column: 1,
        }
    }

    /// A byte of the same file that does not stand before this one. It looks at each byte between them once.
    pub(crate) fn moved(self, file: &[u8], byte: usize) -> Spot {
        let mut spot = Spot { byte, ..self };
        let Some(passed) = file.get(self.byte..byte) else {
            return spot;
        };
        for each in passed {
            if *each == b'\n' {
                spot.line = spot.line.saturating_add(1);
                spot.column = 1;
            } else if begins_character(*each) {
                spot.column = spot.column.saturating_add(1);
            }
        }
        spot
    }
}

fn begins_character(byte: u8) -> bool {
    byte & 0xC0 != 0x80
}
