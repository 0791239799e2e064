// Chains of hashes. A step is one compression: what it hashes stands in an array of 55 bytes, and what it gives is written over the last 32 of them.
ghost use Rattle.std.specs.Prelude.{◌≡◌, ◌-◌, ◌≤◌, length, take, drop};
ghost use Rattle.sha2.specs.Hashers.{Holds256};
ghost use Rattle.lms.specs.Chains.{front, step, steps};

use crate::bytes::put_at;
use sha2::{Digest, Sha256};

// a hasher of what begins with this front
pub(crate) fn hasher_at(id: &[u8; 16], number: u32, kind: u16) -> Sha256
    ensures { Holds256 result (front id.now number kind) }
{
    let mut hasher = Sha256::new();
    hasher.update(id);
    hasher.update(number.to_be_bytes());
    hasher.update(kind.to_be_bytes());
    hasher
}

// What a step of a chain hashes: a front of 22 bytes, the number of the step, and a value of 32 bytes.
pub(crate) fn chain_block(id: &[u8; 16], number: u32, chain: u16, value: &[u8]) -> [u8; 55]
    requires { length value.now ≡ 32 }
    ensures front { take 22 result ≡ front id.now number chain }
    ensures value { drop 23 result ≡ value.now }
{
    let mut block = [0; 55];
    put_at(&mut block, 0, id);
    put_at(&mut block, 16, &number.to_be_bytes());
    put_at(&mut block, 20, &chain.to_be_bytes());
    put_at(&mut block, 23, value);
    block
}

// takes the value of a block a step of that number further
pub(crate) fn one_step(block: &mut [u8; 55], number: u8)
    ensures front { take 22 block.new ≡ take 22 block.old }
    ensures value { drop 23 block.new ≡ step (take 22 block.old) number (drop 23 block.old) }
{
    block[22] = number;
    let value = Sha256::digest(block.as_slice());
    put_at(block, 23, &value);
}

// takes the value of a block from one step of its chain to another
pub(crate) fn run_steps(block: &mut [u8; 55], from: u8, to: u8)
    requires { from ≤ to }
    ensures front { take 22 block.new ≡ take 22 block.old }
    ensures value { drop 23 block.new ≡ steps (take 22 block.old) from (to - from) (drop 23 block.old) }
{
    for number in from..to {
        one_step(block, number);
    }
}
