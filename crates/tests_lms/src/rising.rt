// Signatures by one index after another, for which a signer makes its next trees.
use crate::vectors::{BELOW, signer};
use anyhow::Error;
use lms::{LmsType, OtsType, PrivateKey, hss_verify};
use std::alloc::Global;

pub fn count_rising(alloc: Global, indexes: u64) -> Result<u32, Error> {
    let key = PrivateKey {
        lms: LmsType::H5,
        ots: OtsType::W4,
        id: [7; 16],
        seed: [9; 32],
    };
    let mut signer = signer(alloc, key, &BELOW)?;
    let public_key = signer.public_key().to_bytes();
    let mut passed: u32 = 0;
    for index in 0..indexes {
        let text = index.to_be_bytes();
        let signature = signer.sign(alloc, index, &text)?;
        if hss_verify(&public_key, &text, &signature) {
            passed = passed.wrapping_add(1);
        }
    }
    Ok(passed)
}
