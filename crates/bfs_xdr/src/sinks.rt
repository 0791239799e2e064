ghost use Rattle.std.specs.Prelude.{◌≡◌, ◌<◌, ◌^◌, ◌++◌, ℕ, List, length, take, OnOk, OnErr};
ghost use Rattle.sha2.specs.Hashers.{Holds256};
ghost use Rattle.bfs_model.specs.Bytes.Items.{counted, fixed, hyper, word, words};
ghost use Rattle.bfs_xdr.specs.Sinks.{BeginsWith, Stops, Takes, front_begins};

use crate::hashing::{hash_fixed, hash_opaque, hash_u32, hash_u64, hash_words};
use crate::writer::{put_fixed, put_opaque, put_u32, put_u64, put_words};
use bfs_types::Memory;
use sha2::Sha256;
use std::convert::Infallible;

/// Where items of XDR (RFC 4506) go, one after another: behind the bytes of a vector, or to a hasher, without memory.
pub trait Sink {
    /// Why it may refuse an item. What it had taken before stays.
    type Error: Drop;

    /// It has taken those bytes.
    ghost holds: { Self → List ℕ → Type 0 };

    /// What it has taken begins with those bytes.
    ghost begins: { Self → List ℕ → Type 0 };

    /// Takes an unsigned integer (RFC 4506 section 4.2).
    fn u32(&mut self, number: u32) -> Result<(), Self::Error>
        ensures ok { OnOk result (Takes holds self.old self.new (word number)) }
        ensures err { OnErr result (Stops holds begins self.old self.new) };

    /// Takes an unsigned hyper integer (RFC 4506 section 4.5).
    fn u64(&mut self, number: u64) -> Result<(), Self::Error>
        ensures ok { OnOk result (Takes holds self.old self.new (hyper number)) }
        ensures err { OnErr result (Stops holds begins self.old self.new) };

    /// Takes opaque data of a length that both sides know (RFC 4506 section 4.9).
    fn fixed(&mut self, bytes: &[u8]) -> Result<(), Self::Error>
        ensures ok { OnOk result (Takes holds self.old self.new (fixed bytes.now)) }
        ensures err { OnErr result (Stops holds begins self.old self.new) };

    /// Takes opaque data or a string behind its length (RFC 4506 sections 4.10 and 4.11).
    fn opaque(&mut self, bytes: &[u8]) -> Result<(), Self::Error>
        requires { length bytes.now < 2 ^ 32 }
        ensures ok { OnOk result (Takes holds self.old self.new (counted bytes.now)) }
        ensures err { OnErr result (Stops holds begins self.old self.new) };

    /// Takes unsigned integers, one after another.
    fn words(&mut self, numbers: &[u32]) -> Result<(), Self::Error>
        ensures ok { OnOk result (Takes holds self.old self.new (words numbers.now)) }
        ensures err { OnErr result (Stops holds begins self.old self.new) };

    /// What begins with bytes begins with their front.
    ghost begins_less: { (s : Self) (front rest : List ℕ) → begins s (front ++ rest) → begins s front };
}

impl Sink for Vec<u8> {
    type Error = Memory;

    ghost holds = { λ vec bytes. vec.items ≡ bytes };

    ghost begins = { λ vec bytes. BeginsWith bytes vec.items };

    fn u32(&mut self, number: u32) -> Result<(), Memory> {
        put_u32(self, number)
    }

    fn u64(&mut self, number: u64) -> Result<(), Memory> {
        put_u64(self, number)
    }

    fn fixed(&mut self, bytes: &[u8]) -> Result<(), Memory> {
        put_fixed(self, bytes)
    }

    fn opaque(&mut self, bytes: &[u8]) -> Result<(), Memory> {
        put_opaque(self, bytes)
    }

    fn words(&mut self, numbers: &[u32]) -> Result<(), Memory> {
        put_words(self, numbers)
    }

    ghost begins_less = { λ vec front rest begins. front_begins front rest vec.items begins };
}

impl Sink for Sha256 {
    type Error = Infallible;

    ghost holds = { Holds256 };

    ghost begins = { λ hasher bytes. Unit {0} };

    fn u32(&mut self, number: u32) -> Result<(), Infallible> {
        hash_u32(self, number);
        Ok(())
    }

    fn u64(&mut self, number: u64) -> Result<(), Infallible> {
        hash_u64(self, number);
        Ok(())
    }

    fn fixed(&mut self, bytes: &[u8]) -> Result<(), Infallible> {
        hash_fixed(self, bytes);
        Ok(())
    }

    fn opaque(&mut self, bytes: &[u8]) -> Result<(), Infallible> {
        hash_opaque(self, bytes);
        Ok(())
    }

    fn words(&mut self, numbers: &[u32]) -> Result<(), Infallible> {
        hash_words(self, numbers);
        Ok(())
    }

    ghost begins_less = { λ hasher front rest begins. tt };
}
