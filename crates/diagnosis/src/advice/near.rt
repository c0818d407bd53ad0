//! Words that are like another.

/// The first of these words that is another by one letter more, less or other, by two that stand in the other order, or
/// by capitals.
pub(super) fn nearest<'a>(word: &str, words: &[&'a str]) -> Option<&'a str> {
    words
        .iter()
        .copied()
        .find(|other| is_near(word.as_bytes(), other.as_bytes()))
}

fn is_near(word: &[u8], other: &[u8]) -> bool {
    if word != other && word.eq_ignore_ascii_case(other) {
        return true;
    }
    let same = word
        .iter()
        .zip(other.iter())
        .take_while(|(a, b)| a == b)
        .count();
    let (Some((_, a)), Some((_, b))) = (word.split_at_checked(same), other.split_at_checked(same))
    else {
        return false;
    };
    match (a, b) {
        ([_, a @ ..], [_, b @ ..]) if a == b => true,
        ([first, second, a @ ..], [third, fourth, b @ ..])
            if first == fourth && second == third && a == b => true,
        ([_, a @ ..], b) if a == b => true,
        (a, [_, b @ ..]) if a == b => true,
        _ => false,
    }
}

/// The first of these words that begins as another does, with four bytes at least.
pub(super) fn begins_alike<'a>(word: &str, words: &[&'a str]) -> Option<&'a str> {
    let (front, _) = word.as_bytes().split_at_checked(4)?;
    words
        .iter()
        .copied()
        .find(|other| other.as_bytes().starts_with(front))
}
