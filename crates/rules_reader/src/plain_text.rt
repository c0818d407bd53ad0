//! The plain text of a rules file: a rules file may have comments, and strings over several lines,
//! which JSON has not.
ghost use Rattle.std.specs.Prelude.{◌≡◌, ℕ, List, ◌<◌, ◌++◌, true, nat_le, map, length, IfOk, OnOk, IfSome, ◌+◌};
ghost use Rattle.std.specs.List.{list_all};
ghost use Rattle.rules_reader.specs.Plain.{Piece, IsCut, IsPlain};
ghost use Rattle.rules_reader.specs.Working.Front.{first, closes_string, closes_line, closes_comment, becomes_in, kind_of, front, slash_front};

use json_tree::NoMemory;
use std::alloc::Global;

// What a piece of a file is, as far as it says what becomes of its bytes.
#[derive(Clone, Copy, Debug, PartialEq, Eq)]
enum PieceKind {
    Quoted,
    Comment,
    AsItIs,
}

impl PieceKind {
    fn plain(self, byte: u8) -> u8
        ensures { result ≡ becomes_in self byte }
    {
        match (self, byte) {
            (PieceKind::Quoted, b'\n' | b'\r' | b'\t') => b' ',
            (PieceKind::Comment, _) => b' ',
            _ => byte,
        }
    }

    // Whether it leaves each byte of a piece as it is.
    fn leaves(self, piece: &[u8]) -> bool
        ensures { result ≡ true → map (becomes_in self) piece.now ≡ piece.now }
    {
        match self {
            PieceKind::Quoted => has_no_control(piece),
            PieceKind::Comment => false,
            PieceKind::AsItIs => true,
        }
    }
}

// Whether none of the bytes is an ASCII control character below a space.
fn has_no_control(piece: &[u8]) -> bool
    ensures { result ≡ list_all (nat_le 32) piece.now }
{
    piece.iter().all(|byte| b' ' <= *byte)
}

/// Whether a file is its own plain text, as far as its bytes show: it has no slash, and no ASCII
/// control character below a space. It takes no memory. It looks at each byte of any file, and ends
/// at none before the last, so that many can be looked at at once.
pub(crate) fn is_plain(file: &[u8]) -> bool
    ensures { result ≡ true → IsPlain file.now file.now }
{
    let mut is_plain = true;
    for byte in file {
        is_plain &= (b' ' <= *byte) & (*byte != b'/');
    }
    is_plain
}

/// The plain text of a file: its comments become spaces, and so do raw line feeds, carriage returns
/// and tabs in its strings. A `/*` that is not closed runs to the end, and is left as it is. It takes
/// as many bytes of memory as the file has, and looks at each byte twice.
pub fn plain(alloc: Global, file: &[u8]) -> Result<Vec<u8>, NoMemory>
    ensures plain { IfOk result (λ text. IsPlain file.now text.items) }
    ensures length { IfOk result (λ text. length text.items ≡ length file.now) }
{
    let mut text = Vec::with_capacity(alloc, file.len())?;
    let mut rest = file;
    while let [first, behind @ ..] = rest {
        let (kind, after) = front(*first, behind);
        push_plain(&mut text, kind, &rest[..rest.len() - after.len()])?;
        rest = after;
    }
    Ok(text)
}

fn push_plain(text: &mut Vec<u8>, kind: PieceKind, piece: &[u8]) -> Result<(), NoMemory>
    ensures { OnOk result (text.new.items ≡ text.old.items ++ map (becomes_in kind) piece.now) }
{
    if let [single] = piece {
        text.push(kind.plain(*single))?;
        return Ok(());
    }
    if kind.leaves(piece) {
        text.extend_from_slice(piece)?;
        return Ok(());
    }
    for byte in piece {
        text.push(kind.plain(*byte))?;
    }
    Ok(())
}

// The kind of the piece that begins with this byte, and what stands behind the piece.
fn front(first: u8, behind: &[u8]) -> (PieceKind, &[u8])
    ensures kind { result.0 ≡ kind_of (front first behind.now).0 }
    ensures after { result.1.now ≡ (front first behind.now).1 }
{
    match first {
        b'"' => match string_end(behind) {
            Some(place) => (PieceKind::Quoted, &behind[place + 1..]),
            None => (PieceKind::Quoted, &[]),
        },
        b'/' => slash_front(behind),
        _ => (PieceKind::AsItIs, behind),
    }
}

// The same of a piece that begins with a slash.
fn slash_front(behind: &[u8]) -> (PieceKind, &[u8])
    ensures kind { result.0 ≡ kind_of (slash_front behind.now).0 }
    ensures after { result.1.now ≡ (slash_front behind.now).1 }
{
    match behind {
        [b'/', words @ ..] => match line_end(words) {
            Some(place) => (PieceKind::Comment, &words[place..]),
            None => (PieceKind::Comment, &[]),
        },
        [b'*', words @ ..] => match comment_end(words) {
            Some(place) => (PieceKind::Comment, &words[place + 2..]),
            None => (PieceKind::AsItIs, &[]),
        },
        _ => (PieceKind::AsItIs, behind),
    }
}

// Where the quote stands that closes a string: the first that no backslash escapes.
fn string_end(inside: &[u8]) -> Option<usize>
    ensures first { result ≡ first (closes_string inside.now) (length inside.now) }
    ensures within { IfSome result (λ place. place < length inside.now) }
{
    let mut escaped = false;
    for (place, byte) in inside.iter().enumerate() {
        if *byte == b'"' && !escaped {
            return Some(place);
        }
        escaped = *byte == b'\\' && !escaped;
    }
    None
}

// Where the line ends.
fn line_end(words: &[u8]) -> Option<usize>
    ensures first { result ≡ first (closes_line words.now) (length words.now) }
    ensures within { IfSome result (λ place. place < length words.now) }
{
    for (place, byte) in words.iter().enumerate() {
        if *byte == b'\n' || *byte == b'\r' {
            return Some(place);
        }
    }
    None
}

// Where the `*/` stands that closes a comment.
fn comment_end(words: &[u8]) -> Option<usize>
    ensures first { result ≡ first (closes_comment words.now) (length words.now) }
    ensures within { IfSome result (λ place. place + 1 < length words.now) }
{
    for (place, byte) in words.iter().enumerate() {
        if *byte == b'*' && words.get(place + 1) == Some(&b'/') {
            return Some(place);
        }
    }
    None
}

/// Each file is cut into pieces in exactly one way, and so has exactly one plain text.
pub fn every_file_has_one_plain_text()
    ensures cut { (file : List ℕ) → (pieces : List Piece) × IsCut file pieces }
    ensures one_cut { (file : List ℕ) (one two : List Piece) → IsCut file one → IsCut file two → one ≡ two }
    ensures text { (file : List ℕ) → (text : List ℕ) × IsPlain file text }
    ensures one_text { (file one two : List ℕ) → IsPlain file one → IsPlain file two → one ≡ two }
{}
