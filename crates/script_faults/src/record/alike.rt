//! A known key that begins with the same words as an unknown one.

/// How many words they have to share.
const FEWEST: usize = 2;

/// The known key that shares the most words at the beginning with a key, if one shares more than
/// all others: `bytes_per_row_divisor` of `bytes_per_row_alignment`.
pub(crate) fn begins_alike<'a>(key: &str, keys: &[&'a str]) -> Option<&'a str> {
    let mut most = FEWEST.saturating_sub(1);
    let mut best = None;
    for known in keys {
        let shared = words_shared(key, known);
        if shared > most {
            most = shared;
            best = Some(*known);
        } else if shared == most {
            best = None;
        }
    }
    best
}

/// How many words two keys share at the beginning.
fn words_shared(a: &str, b: &str) -> usize {
    a.split('_')
        .zip(b.split('_'))
        .take_while(|(one, other)| one == other)
        .count()
}
