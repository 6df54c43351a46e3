//! How long documents are, in whole numbers.

/// How many length ids there are.
const LENGTH_IDS: usize = 256;

/// The length id of a document of so many words: below 32 the number itself, and from there on eight ids
/// for each power of two, so that lengths of one id differ by an eighth at most.
pub fn length_id(words: u32) -> u8 {
    if words < 32 {
        return words as u8;
    }
    let power = words.ilog2();
    let eighths = words.checked_shr(power.saturating_sub(3)).unwrap_or(8);
    // a power of two begins with 8 eighths
    let id = power
        .saturating_sub(5)
        .saturating_mul(8)
        .saturating_add(eighths);
    u8::try_from(id.saturating_add(24)).unwrap_or(u8::MAX)
}

/// The least number of words of a length id.
fn least_length(id: usize) -> u128 {
    if id < 32 {
        return id as u128;
    }
    let above = id - 32;
    let eighths = (8 + above % 8) as u128;
    let power = u32::try_from(above / 8 + 2).unwrap_or(0);
    eighths.checked_shl(power).unwrap_or(u128::MAX)
}

/// The norm of each length id: what BM25 adds to a frequency, 0.5 and 1.5 times the length over the mean
/// length, rounded to the nearest whole number.
pub fn norms(documents: u64, words: u64) -> [u32; LENGTH_IDS] {
    let mut norms = [0; LENGTH_IDS];
    let mut greatest: u32 = 0;
    // the norms of the ids before this one are there and don't fall; the last is the greatest
    for (id, norm) in norms.iter_mut().enumerate() {
        greatest = greatest.max(norm_of(least_length(id), documents, words));
        *norm = greatest;
    }
    norms
}

// 0.5 + 1.5 * length / (words / documents), rounded: this and half of one more, rounded down.
fn norm_of(length: u128, documents: u64, words: u64) -> u32 {
    let words = u128::from(words.max(1));
    let lengths = length.saturating_mul(u128::from(documents));
    let whole = lengths.saturating_mul(3) / (2 * words);
    u32::try_from(whole.saturating_add(1)).unwrap_or(u32::MAX)
}
