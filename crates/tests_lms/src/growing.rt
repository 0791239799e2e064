//! Trees that have grown before they sign.
use crate::vectors::{BELOW, signer};
use lms::{LmsType, OtsType, PrivateKey, Signer, TreeTypes};
use std::alloc::Global;
use std::test::Fail;

const KEY: PrivateKey = PrivateKey {
    lms: LmsType::H5,
    ots: OtsType::W2,
    id: [3; 16],
    seed: [4; 32],
};

// of two levels with 32 leaves each: the first, the last, and back
static INDEXES: [u64; 3] = [0, 1_023, 40];

// a tree of 32 leaves grows by a leaf at a time, and then by all nodes over them
const STEPS: u32 = 33;

// how often a tree grows that signs by the index
fn grow(alloc: Global, signer: &Signer, index: u64) -> u32 {
    for count in 0u32..1_000 {
        if !signer.grow(alloc, index) {
            return count;
        }
    }
    1_000
}

// and behind it
fn grow_next(alloc: Global, signer: &Signer, index: u64) -> u32 {
    for count in 0u32..1_000 {
        if !signer.grow_next(alloc, index) {
            return count;
        }
    }
    1_000
}

fn new_signer(alloc: Global, below: &[TreeTypes]) -> Result<Signer, Fail> {
    Ok(signer(alloc, KEY, below).ok().ok_or("no signer")?)
}

fn sign(alloc: Global, signer: &mut Signer, index: u64) -> Result<Vec<u8>, Fail> {
    let signed = signer.sign(alloc, index, b"a text");
    Ok(signed.ok().ok_or("no signature")?)
}

fn signed_anew(alloc: Global, index: u64) -> Result<Vec<u8>, Fail> {
    let mut signer = new_signer(alloc, &BELOW[..1])?;
    sign(alloc, &mut signer, index)
}

#[test]
fn trees_that_have_grown_sign_alike(rt: HostRuntime) -> Result<(), Fail> {
    let alloc = rt.alloc();
    let mut signer = new_signer(alloc, &BELOW[..1])?;
    for index in INDEXES.iter().copied() {
        let _ = grow(alloc, &signer, index);
        let _ = grow_next(alloc, &signer, index);
        let signed = sign(alloc, &mut signer, index)?;
        assert!(rt; signed == signed_anew(alloc, index)?);
    }
    Ok(())
}

#[test]
fn trees_grow_once(rt: HostRuntime) -> Result<(), Fail> {
    let alloc = rt.alloc();
    let mut signer = new_signer(alloc, &BELOW)?;
    assert_eq!(rt; grow(alloc, &signer, 0), 2 * STEPS);
    // the next tree of the last level
    assert_eq!(rt; grow_next(alloc, &signer, 0), STEPS);
    assert_eq!(rt; grow(alloc, &signer, 32), 0);
    let _ = sign(alloc, &mut signer, 0)?;
    assert_eq!(rt; grow(alloc, &signer, 31), 0);
    assert_eq!(rt; grow_next(alloc, &signer, 31), 0);
    // and of the level above it, once half of a tree is used up
    assert_eq!(rt; grow_next(alloc, &signer, 512), 2 * STEPS);
    Ok(())
}

#[test]
fn trees_are_copied(rt: HostRuntime) -> Result<(), Fail> {
    let alloc = rt.alloc();
    let signer = new_signer(alloc, &BELOW[..1])?;
    let mut copy = signer.try_clone(alloc)?;
    assert!(rt; copy.is_of(&KEY, &BELOW[..1]));
    assert_eq!(rt; grow(alloc, &signer, 1_023), STEPS);
    // there is no next one
    assert_eq!(rt; grow_next(alloc, &signer, 1_023), 0);
    copy.copy_trees(alloc, &signer, 1_023);
    assert_eq!(rt; grow(alloc, &copy, 1_023), 0);
    assert!(rt; sign(alloc, &mut copy, 1_022)? == signed_anew(alloc, 1_022)?);
    // from those that have signed, too
    let other = signer.try_clone(alloc)?;
    other.copy_trees(alloc, &copy, 1_023);
    assert_eq!(rt; grow(alloc, &other, 1_023), 0);
    Ok(())
}
