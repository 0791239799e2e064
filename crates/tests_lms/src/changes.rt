use crate::vectors::Vector;
use std::alloc::{AllocError, Global};

// how many were changed, and how many of these were refused
#[derive(Clone, Copy)]
pub struct Count {
    pub changed: u32,
    pub refused: u32,
}

impl Count {
    fn add(&mut self, passes: bool) {
        self.changed = self.changed.wrapping_add(1);
        if !passes {
            self.refused = self.refused.wrapping_add(1);
        }
    }
}

// of bits that are changed one at a time, beside the first ones
const PLACES: usize = 64;

pub fn count_refused(alloc: Global, vector: &Vector, other: &[u8]) -> Result<Count, AllocError> {
    let mut count = Count {
        changed: 0,
        refused: 0,
    };
    count_cut(&mut count, vector);
    count_longer(alloc, &mut count, vector)?;
    count_bits_of_signature(alloc, &mut count, vector)?;
    count_bits_of_key(alloc, &mut count, vector)?;
    if other != vector.public_key.as_slice() {
        count.add(vector.kind.verify(other, &vector.text, &vector.signature));
    }
    Ok(count)
}

// keys and signatures cut at each byte
fn count_cut(count: &mut Count, vector: &Vector) {
    for length in 0..vector.public_key.len() {
        if let Some(key) = vector.public_key.get(..length) {
            count.add(vector.kind.verify(key, &vector.text, &vector.signature));
        }
    }
    for length in 0..vector.signature.len() {
        if let Some(signature) = vector.signature.get(..length) {
            count.add(
                vector
                    .kind
                    .verify(&vector.public_key, &vector.text, signature),
            );
        }
    }
}

// a byte stands behind each part
fn count_longer(alloc: Global, count: &mut Count, vector: &Vector) -> Result<(), AllocError> {
    let key = longer(alloc, &vector.public_key)?;
    let text = longer(alloc, &vector.text)?;
    let signature = longer(alloc, &vector.signature)?;
    count.add(vector.kind.verify(&key, &vector.text, &vector.signature));
    count.add(
        vector
            .kind
            .verify(&vector.public_key, &text, &vector.signature),
    );
    count.add(
        vector
            .kind
            .verify(&vector.public_key, &vector.text, &signature),
    );
    Ok(())
}

fn longer(alloc: Global, bytes: &[u8]) -> Result<Vec<u8>, AllocError> {
    let mut longer = Vec::from_slice(alloc, bytes)?;
    longer.push(0)?;
    Ok(longer)
}

// each bit of the first 44 bytes, where numbers and typecodes stand, and bits at places that go all over it
fn count_bits_of_signature(
    alloc: Global,
    count: &mut Count,
    vector: &Vector,
) -> Result<(), AllocError> {
    let mut signature = Vec::from_slice(alloc, &vector.signature)?;
    let bits = signature.len().saturating_mul(8);
    for number in 0..96usize.saturating_add(PLACES) {
        let bit = if number < 96 {
            number
        } else {
            spread(number, bits)
        };
        flip(&mut signature, bit);
        count.add(
            vector
                .kind
                .verify(&vector.public_key, &vector.text, &signature),
        );
        flip(&mut signature, bit);
    }
    Ok(())
}

fn count_bits_of_key(alloc: Global, count: &mut Count, vector: &Vector) -> Result<(), AllocError> {
    let mut key = Vec::from_slice(alloc, &vector.public_key)?;
    let bits = key.len().saturating_mul(8);
    for number in 0..PLACES {
        let bit = if number < 32 {
            number
        } else {
            spread(number, bits)
        };
        flip(&mut key, bit);
        count.add(vector.kind.verify(&key, &vector.text, &vector.signature));
        flip(&mut key, bit);
    }
    Ok(())
}

// a place below the count, another for each number
fn spread(number: usize, count: usize) -> usize {
    match count {
        0 => 0,
        count => number.wrapping_mul(0x9e37_79b9_7f4a_7c15) % count,
    }
}

fn flip(bytes: &mut [u8], bit: usize) {
    let place = bit / 8;
    if place < bytes.len() {
        bytes[place] ^= 1 << (bit % 8);
    }
}
