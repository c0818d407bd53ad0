//! Which bytes of an expression's text its tokens take.

use expr_tokens::{ExprFault, scan};
use json_tree::NoMemory;
use std::alloc::Global;

/// The bytes that a token takes, the last of them left out.
#[derive(Clone, Copy, Debug)]
pub(crate) struct Span {
    pub(crate) from: usize,
    pub(crate) to: usize,
}

/// The bytes of each token of a text; none where it spells no tokens.
pub(crate) fn spans(alloc: Global, text: &str) -> Result<Vec<Span>, NoMemory> {
    let places = match scan(alloc, text) {
        Ok(scanned) => scanned.places,
        Err(ExprFault::NoMemory) => return Err(NoMemory),
        Err(_) => return Ok(Vec::new(alloc)),
    };
    let mut spans = Vec::with_capacity(alloc, places.len())?;
    for (index, from) in places.iter().enumerate() {
        let next = places.get(index.saturating_add(1)).copied();
        let to = end_before_blanks(text.as_bytes(), next.unwrap_or(text.len()));
        spans.push(Span { from: *from, to })?;
    }
    Ok(spans)
}

// Where the token ends behind which there are only blanks up to a place.
fn end_before_blanks(text: &[u8], place: usize) -> usize {
    let Some((front, _)) = text.split_at_checked(place) else {
        return place;
    };
    front
        .iter()
        .rposition(|byte| !is_blank(*byte))
        .map_or(0, |last| last.saturating_add(1))
}

fn is_blank(byte: u8) -> bool {
    matches!(byte, b' ' | b'\t' | b'\n' | b'\r')
}
