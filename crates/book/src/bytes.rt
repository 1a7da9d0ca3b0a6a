// Bytes as numbers, the high one first. What lies past the end is 0.
ghost use Rattle.std.specs.Prelude.{◌≡◌, ◌<◌, get_or};
ghost use Rattle.law.specs.Book.{two_at};

pub fn byte_at(b: &[u8], i: usize) -> u64
    ensures { (result ≡ get_or b.now i 0) × (result < 256) }
{
    b.get(i).map_or(0, |byte| u64::from(*byte))
}

// Past the last place that a slice can have there is nothing.
pub fn two_at(b: &[u8], i: usize) -> u64
    ensures { (result ≡ two_at b.now i) × (result < 65_536) }
{
    byte_at(b, i) * 256 + byte_at(b, i.saturating_add(1))
}
