//! A place in bytes of XDR (RFC 4506). Tests read by it what they compare with the code: it shares nothing with `bfs_xdr`.

/// The bytes that are left.
#[derive(Drop)]
pub struct Cursor<'a> {
    left: &'a [u8],
}

impl<'a> Cursor<'a> {
    /// At the first of these.
    pub fn new(bytes: &'a [u8]) -> Cursor<'a> {
        Cursor { left: bytes }
    }

    /// The bytes that are left.
    pub fn left(&self) -> &'a [u8] {
        self.left
    }

    /// So many bytes.
    pub fn take(&mut self, count: usize) -> Option<&'a [u8]> {
        let (front, rest) = self.left.split_at_checked(count)?;
        self.left = rest;
        Some(front)
    }

    /// A word.
    pub fn word(&mut self) -> Option<u32> {
        match self.take(4)? {
            [a, b, c, d] => Some(u32::from_be_bytes([*a, *b, *c, *d])),
            _ => None,
        }
    }

    /// A word that is at most that.
    pub fn word_up_to(&mut self, most: u32) -> Option<u32> {
        let word = self.word()?;
        if word <= most { Some(word) } else { None }
    }

    /// A word that is just that.
    pub fn just(&mut self, wanted: u32) -> Option<()> {
        if self.word()? == wanted {
            Some(())
        } else {
            None
        }
    }

    /// Two words, as one number.
    pub fn double(&mut self) -> Option<u64> {
        let (high, low) = (self.word()? as u64, self.word()? as u64);
        Some(high << 32 | low)
    }

    /// A length of at most so many bytes, and as many bytes, with zeros behind them up to a whole word.
    pub fn opaque(&mut self, most: u32) -> Option<&'a [u8]> {
        let length = self.word_up_to(most)? as usize;
        let bytes = self.take(length)?;
        let padding = self.take((4 - length % 4) % 4)?;
        if padding.iter().all(|byte| *byte == 0) {
            Some(bytes)
        } else {
            None
        }
    }
}
