ghost use Rattle.std.specs.Prelude.{◌≡◌, true, false};
ghost use Rattle.bfs_model.specs.Bytes.Items.{word_at, hyper_at, boolean_at, fixed_at, opaque_at};
ghost use Rattle.bfs_xdr.specs.Reading.{Reads};

use crate::error::XdrError;
use crate::items::{boolean_of, fixed_of, hyper_of, opaque_of, word_of};
use std::marker::Model;

/// Reads the items of XDR (RFC 4506) one after another from bytes that it borrows. A read that fails leaves it where it was.
#[derive(Drop)]
pub struct Reader<'a> {
    left: &'a [u8],
    strict: bool,
}

impl<'a> Model for Reader<'a> {
    ghost use Rattle.bfs_model.specs.Bytes.Items.{Input};

    ghost Value = { Input };

    ghost view = { λ reader. record { left = reader.left.now; strict = reader.strict } };
}

impl<'a> Reader<'a> {
    /// A reader that doesn't look at padding.
    pub fn new(bytes: &'a [u8]) -> Reader<'a>
        ensures { result ≡ record { left = bytes.now; strict = false } }
    {
        Reader {
            left: bytes,
            strict: false,
        }
    }

    /// A reader that refuses padding other than zeros.
    pub fn strict(bytes: &'a [u8]) -> Reader<'a>
        ensures { result ≡ record { left = bytes.now; strict = true } }
    {
        Reader {
            left: bytes,
            strict: true,
        }
    }

    /// The bytes that are left to read.
    pub fn rest(&self) -> &'a [u8]
        ensures { result.now ≡ self.now.left }
    {
        self.left
    }

    /// An unsigned integer (RFC 4506 section 4.2).
    pub fn u32(&mut self) -> Result<u32, XdrError>
        ensures { Reads (λ x. x) self.old self.new result (word_at self.old.left) }
    {
        let (value, rest) = word_of(self.left)?;
        self.left = rest;
        Ok(value)
    }

    /// An unsigned hyper integer (RFC 4506 section 4.5).
    pub fn u64(&mut self) -> Result<u64, XdrError>
        ensures { Reads (λ x. x) self.old self.new result (hyper_at self.old.left) }
    {
        let (value, rest) = hyper_of(self.left)?;
        self.left = rest;
        Ok(value)
    }

    /// A boolean (RFC 4506 section 4.4).
    pub fn boolean(&mut self) -> Result<bool, XdrError>
        ensures { Reads (λ x. x) self.old self.new result (boolean_at self.old.left) }
    {
        let (value, rest) = boolean_of(self.left)?;
        self.left = rest;
        Ok(value)
    }

    /// Opaque data of a length that both sides know, in bytes (RFC 4506 section 4.9).
    pub fn fixed(&mut self, count: u32) -> Result<&'a [u8], XdrError>
        ensures { Reads (λ x. x.now) self.old self.new result (fixed_at self.old.strict count self.old.left) }
    {
        let (item, rest) = fixed_of(self.strict, count as usize, self.left)?;
        self.left = rest;
        Ok(item)
    }

    /// Opaque data or a string of at most so many bytes, behind its length (RFC 4506 sections 4.10 and 4.11).
    pub fn opaque(&mut self, max: u32) -> Result<&'a [u8], XdrError>
        ensures { Reads (λ x. x.now) self.old self.new result (opaque_at self.old.strict max self.old.left) }
    {
        let (item, rest) = opaque_of(self.strict, max, self.left)?;
        self.left = rest;
        Ok(item)
    }
}
