// Bytes that a request may hold, in place: they are written without memory.
ghost use Rattle.std.specs.Prelude.{◌≡◌, ◌≤◌, ◌*◌, [], None, length, nat_lt, option_map, replicate, IfSome, if◌then◌else◌};
ghost use Rattle.std.specs.Result.{result_ok};
ghost use Rattle.hex.specs.Hex.{decode_of};
ghost use Rattle.bfs_model.specs.Bytes.Items.{counted, padding_of, word, words};
ghost use Rattle.bfs_model.specs.Server.Limits.{most_request_bytes};
ghost use Rattle.bfs_trace.specs.Inside.Writing.{Puts};

use bfs_types::MOST_REQUEST_BYTES;
use std::marker::Model;

/// Bytes one behind another, at most `MOST_REQUEST_BYTES`, which lie in the value itself. Behind a `None` it is not said which they are.
#[derive(Drop)]
pub(crate) struct Buffer {
    bytes: [u8; MOST_REQUEST_BYTES],
    len: usize,
}

impl Model for Buffer {
    ghost use Rattle.std.specs.Prelude.{◌≤◌, ℕ, List, take};
    ghost use Rattle.bfs_model.specs.Server.Limits.{most_request_bytes};

    ghost Value = { List ℕ };

    ghost view = { λ buffer. take buffer.len buffer.bytes };

    ghost invariant = { λ buffer. buffer.len ≤ most_request_bytes };
}

impl Buffer {
    /// No bytes.
    pub(crate) fn new() -> Buffer
        ensures { result ≡ [] }
    {
        Buffer {
            bytes: [0; MOST_REQUEST_BYTES],
            len: 0,
        }
    }

    /// Has no bytes from now on.
    pub(crate) fn clear(&mut self)
        ensures { self.new ≡ [] }
    {
        self.len = 0;
    }

    pub(crate) fn as_slice(&self) -> &[u8]
        ensures value { result.now ≡ self.now }
        ensures within { length result.now ≤ most_request_bytes }
    {
        &self.bytes[..self.len]
    }

    /// Puts bytes behind the others, or gives `None` where there is no room for them.
    pub(crate) fn push(&mut self, bytes: &[u8]) -> Option<()>
        ensures { Puts result self.old self.new bytes.now }
    {
        if MOST_REQUEST_BYTES - self.len < bytes.len() {
            return None;
        }
        let end = self.len + bytes.len();
        self.bytes[self.len..end].copy_from_slice(bytes);
        self.len = end;
        Some(())
    }

    /// Puts an unsigned integer behind the others (RFC 4506 section 4.2).
    #[tactic(auto, unfolding(bfs_model::specs::Bytes::Items::word))]
    pub(crate) fn push_word(&mut self, number: u32) -> Option<()>
        ensures { Puts result self.old self.new (word number) }
    {
        self.push(&number.to_be_bytes())
    }

    /// Puts unsigned integers behind the others, one after another.
    pub(crate) fn push_words(&mut self, numbers: &[u32]) -> Option<()>
        ensures { Puts result self.old self.new (words numbers.now) }
    {
        for number in numbers {
            self.push_word(*number)?;
        }
        Some(())
    }

    /// Puts opaque data or a string behind the others, after its length (RFC 4506 sections 4.10 and 4.11).
    #[tactic(auto, unfolding(bfs_model::specs::Bytes::Items::counted, bfs_model::specs::Bytes::Items::fixed), using(std::proofs::lemmas::List::append_assoc, crate::proofs::Room::length_of_both))]
    pub(crate) fn push_opaque(&mut self, bytes: &[u8]) -> Option<()>
        requires { length bytes.now ≤ most_request_bytes }
        ensures { Puts result self.old self.new (counted bytes.now) }
    {
        self.push_word(bytes.len() as u32)?;
        self.push(bytes)?;
        self.push(padding(bytes.len()))
    }

    /// Has only the bytes that hexadecimal digits spell, at most `MOST_REQUEST_BYTES`, and gives them; `None` if they spell none. They are
    /// decoded in their place.
    pub(crate) fn decode(&mut self, digits: &[u8]) -> Option<&[u8]>
        ensures value { option_map (λ bytes. bytes.now) result ≡ (if nat_lt (2 * most_request_bytes) (length digits.now) then None else result_ok (decode_of digits.now)) }
        ensures within { IfSome result (λ bytes. length bytes.now ≤ most_request_bytes) }
    {
        if digits.len() > 2 * MOST_REQUEST_BYTES {
            return None;
        }
        self.len = digits.len() / 2;
        hex::decode_to_slice(digits, &mut self.bytes[..self.len]).ok()?;
        Some(self.as_slice())
    }
}

// zeros behind so many bytes, up to a multiple of four (RFC 4506 section 4.10)
fn padding(count: usize) -> &'static [u8]
    ensures { result.now ≡ replicate (padding_of count) 0 }
{
    match count % 4 {
        0 => &[],
        1 => &[0, 0, 0],
        2 => &[0, 0],
        _ => &[0],
    }
}
