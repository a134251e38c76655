// Words in a line of a list.

// The first word and what follows its space, where there is one.
pub fn split_once(line: &[u8]) -> Option<(&[u8], &[u8])> {
    let end = line.iter().position(|b| *b == b' ')?;
    Some((&line[..end], &line[end + 1..]))
}

// What follows the first word and its space; nothing where there is none.
pub fn after(line: &[u8]) -> &[u8] {
    match split_once(line) {
        Some((_, rest)) => rest,
        None => b"",
    }
}
