// The page that the picture is written on, in memory of its own. A text that does not fit is an error, and nothing of it is written.
// So no function has to know how long its text may be, and no picture is cut in silence.
ghost use Rattle.std.specs.Prelude.{◌≤◌};
ghost use Rattle.ring.specs.declared.page.TheConstants.{ROOM};

use std::fmt;

const ROOM: usize = 20_000;

#[derive(Drop)]
pub(crate) struct Page {
    bytes: [u8; ROOM],
    filled: usize,
    ghost within: { filled ≤ ROOM },
}

impl Page {
    pub(crate) fn new() -> Page {
        Page {
            bytes: [0; ROOM],
            filled: 0,
        }
    }

    pub(crate) fn written(&self) -> &[u8] {
        &self.bytes[..self.filled]
    }
}

impl fmt::Write for Page {
    fn write_str(&mut self, text: &str) -> fmt::Result {
        let end = self.filled + text.len();
        if ROOM < end {
            return Err(fmt::Error);
        }
        self.bytes[self.filled..end].copy_from_slice(text.as_bytes());
        self.filled = end;
        Ok(())
    }
}
