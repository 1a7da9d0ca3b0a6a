// Bytes of the input at any place: 0 past its end. The types are narrower than `book::two_at` has, so that a place and a byte to be
// stored need no cast.
pub(crate) fn byte_at(s: &[u8], at: usize) -> u8 {
    s.get(at).copied().unwrap_or(0)
}

// The bytes from a place on: none past the end.
pub(crate) fn from(s: &[u8], at: usize) -> &[u8] {
    s.get(at..).unwrap_or(&[])
}

// Two bytes as a number, the high one first.
pub(crate) fn two_at(s: &[u8], at: usize) -> u16 {
    let two = from(s, at);
    u16::from_be_bytes([byte_at(two, 0), byte_at(two, 1)])
}
