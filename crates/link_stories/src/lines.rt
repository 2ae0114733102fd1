//! Lines of a text, and their words.

/// How many bytes of a text stand before the first of this value.
fn length_before(text: &[u8], end: u8) -> usize {
    let mut length = 0usize;
    for byte in text {
        if *byte == end {
            break;
        }
        length = length.saturating_add(1);
    }
    length
}

/// A text before the first byte of this value, and after it.
fn split_at_byte(text: &[u8], end: u8) -> (&[u8], &[u8]) {
    let (front, rest) = text.split_at(length_before(text, end).min(text.len()));
    let (_, after) = rest.split_at(rest.len().min(1));
    (front, after)
}

/// The first line of a text, without its line feed, and what follows.
pub(crate) fn first_line(text: &[u8]) -> (&[u8], &[u8]) {
    split_at_byte(text, b'\n')
}

/// What follows the first space of a line.
pub(crate) fn second_word(line: &[u8]) -> &[u8] {
    let (_, after) = split_at_byte(line, b' ');
    after
}

/// A text before its first line that begins with a word, and from there.
pub(crate) fn split_before<'a>(text: &'a [u8], word: &[u8]) -> (&'a [u8], &'a [u8]) {
    let mut at = 0usize;
    for line in text.split_inclusive(|byte| *byte == b'\n') {
        if line.starts_with(word) {
            break;
        }
        at = at.saturating_add(line.len());
    }
    text.split_at(at.min(text.len()))
}

/// What follows a word at the front of a line.
pub(crate) fn after_word<'a>(line: &'a [u8], word: &[u8]) -> Option<&'a [u8]> {
    if !line.starts_with(word) {
        return None;
    }
    let (_, rest) = line.split_at(word.len().min(line.len()));
    Some(rest)
}

/// The number that the first digits of a line are.
pub(crate) fn number_of(line: &[u8]) -> u64 {
    let mut number = 0u64;
    for byte in line {
        if !byte.is_ascii_digit() {
            break;
        }
        number = number
            .saturating_mul(10)
            .saturating_add(u64::from(byte.saturating_sub(b'0')));
    }
    number
}

/// Whether a line is `front NAME`.
fn is_front(line: &[u8], name: &[u8]) -> bool {
    match after_word(line, b"front ") {
        Some(found) => found == name,
        None => false,
    }
}

/// The lines of a head after the line `front NAME`, up to the next such line.
pub(crate) fn front_of<'a>(head: &'a [u8], name: &[u8]) -> &'a [u8] {
    let (_, mut rest) = split_before(head, b"front ");
    for _front in 0..head.len() {
        let (line, after) = first_line(rest);
        let (body, next) = split_before(after, b"front ");
        if next.is_empty() || is_front(line, name) {
            return body;
        }
        rest = next;
    }
    &[]
}
