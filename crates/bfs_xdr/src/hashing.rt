ghost use Rattle.std.specs.Prelude.{◌≡◌, ◌<◌, ◌^◌, ◌++◌, List, ℕ, length, replicate};
ghost use Rattle.sha2.specs.Hashers.{Holds256};
ghost use Rattle.bfs_model.specs.Bytes.Items.{word, hyper, fixed, counted, words};

use crate::items::padding;
use sha2::{Digest, Sha256};

/// Feeds an unsigned integer to a hasher (RFC 4506 section 4.2).
#[tactic(auto, unfolding(bfs_model::specs::Bytes::Items::word))]
pub fn hash_u32(hasher: &mut Sha256, number: u32)
    ensures { (m : List ℕ) → Holds256 hasher.old m → Holds256 hasher.new (m ++ word number) }
{
    hasher.update(number.to_be_bytes());
}

/// Feeds an unsigned hyper integer to a hasher (RFC 4506 section 4.5).
#[tactic(auto, unfolding(bfs_model::specs::Bytes::Items::hyper))]
pub fn hash_u64(hasher: &mut Sha256, number: u64)
    ensures { (m : List ℕ) → Holds256 hasher.old m → Holds256 hasher.new (m ++ hyper number) }
{
    hasher.update(number.to_be_bytes());
}

/// Feeds opaque data of a length that both sides know to a hasher, without a copy (RFC 4506 section 4.9).
#[tactic(auto, using(std::proofs::lemmas::List::append_assoc), unfolding(bfs_model::specs::Bytes::Items::fixed))]
pub fn hash_fixed(hasher: &mut Sha256, bytes: &[u8])
    ensures { (m : List ℕ) → Holds256 hasher.old m → Holds256 hasher.new (m ++ fixed bytes.now) }
{
    hasher.update(bytes);
    hasher.update(zeros(padding(bytes.len())));
}

fn zeros(count: usize) -> &'static [u8]
    requires { count < 4 }
    ensures { result.now ≡ replicate count 0 }
{
    match count {
        0 => &[],
        1 => &[0],
        2 => &[0, 0],
        _ => &[0, 0, 0],
    }
}

/// Feeds opaque data or a string to a hasher behind its length, without a copy (RFC 4506 sections 4.10 and 4.11).
#[tactic(auto, unfolding(bfs_model::specs::Bytes::Items::counted))]
pub fn hash_opaque(hasher: &mut Sha256, bytes: &[u8])
    requires { length bytes.now < 2 ^ 32 }
    ensures { (m : List ℕ) → Holds256 hasher.old m → Holds256 hasher.new (m ++ counted bytes.now) }
{
    hash_u32(hasher, bytes.len() as u32);
    hash_fixed(hasher, bytes);
}

/// Feeds unsigned integers to a hasher, one after another.
pub fn hash_words(hasher: &mut Sha256, numbers: &[u32])
    ensures { (m : List ℕ) → Holds256 hasher.old m → Holds256 hasher.new (m ++ words numbers.now) }
{
    for number in numbers {
        hash_u32(hasher, *number);
    }
}
