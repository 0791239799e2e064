//! Signatures of three levels, verified by upper levels that are kept: each answer is that of one who keeps none.
use crate::vectors::signer;
use lms::{HssPublicKey, LmsType, OtsType, PrivateKey, Signer, TreeTypes, UpperLevels};
use std::alloc::Global;
use std::test::Fail;

// by one tree of the last level, by the next one, below another tree of the second level, and by the first one again
static INDEXES: [u64; 6] = [0, 1, 32, 33, 1_024, 2];

// the bytes of the signature of one level
const ONE_LEVEL: usize = 4_460;

// what stands between bytes that are changed, and between cuts
const STRIDE: usize = 401;

const TYPES: TreeTypes = TreeTypes {
    lms: LmsType::H5,
    ots: OtsType::W2,
};

fn signer_of(alloc: Global, byte: u8) -> Result<Signer, Fail> {
    let key = PrivateKey {
        lms: TYPES.lms,
        ots: TYPES.ots,
        id: [byte; 16],
        seed: [byte; 32],
    };
    Ok(signer(alloc, key, &[TYPES, TYPES]).ok().ok_or("no signer")?)
}

fn signed(alloc: Global, signer: &mut Signer, index: u64) -> Result<Vec<u8>, Fail> {
    let signature = signer.sign(alloc, index, &index.to_be_bytes());
    Ok(signature.ok().ok_or("no signature")?)
}

// the answer that both give
fn answer(
    levels: &UpperLevels,
    key: &HssPublicKey,
    index: u64,
    signature: &[u8],
) -> Result<bool, Fail> {
    let text = index.to_be_bytes();
    let passes = levels.verify(key, &text, signature);
    if passes == key.verify(&text, signature) {
        Ok(passes)
    } else {
        Err(Fail::from("another answer than with no levels that are kept"))
    }
}

#[test]
fn signatures_by_several_last_trees_pass(rt: HostRuntime) -> Result<(), Fail> {
    let alloc = rt.alloc();
    let mut signer = signer_of(alloc, 1)?;
    let key = signer.public_key();
    let levels = UpperLevels::new(alloc);
    for index in INDEXES.iter().copied() {
        let signature = signed(alloc, &mut signer, index)?;
        assert!(rt; answer(&levels, &key, index, &signature)?);
        assert!(rt; answer(&levels, &key, index, &signature)?);
        assert!(rt; !answer(&levels, &key, index ^ 1, &signature)?);
    }
    Ok(())
}

#[test]
fn changed_bytes_of_each_part_are_refused(rt: HostRuntime) -> Result<(), Fail> {
    let alloc = rt.alloc();
    let mut signer = signer_of(alloc, 1)?;
    let key = signer.public_key();
    let levels = UpperLevels::new(alloc);
    let right = signed(alloc, &mut signer, 7)?;
    let mut changed = right.clone()?;
    assert!(rt; answer(&levels, &key, 7, &right)?);
    for place in (0..right.len()).step_by(STRIDE) {
        if place < changed.len() {
            changed[place] ^= 1;
            assert!(rt; !answer(&levels, &key, 7, &changed)?);
            changed[place] ^= 1;
            assert!(rt; answer(&levels, &key, 7, &right)?);
        }
    }
    Ok(())
}

#[test]
fn cut_and_longer_signatures_are_refused(rt: HostRuntime) -> Result<(), Fail> {
    let alloc = rt.alloc();
    let mut signer = signer_of(alloc, 1)?;
    let key = signer.public_key();
    let levels = UpperLevels::new(alloc);
    let mut signature = signed(alloc, &mut signer, 7)?;
    assert!(rt; answer(&levels, &key, 7, &signature)?);
    for length in (0..signature.len()).step_by(STRIDE) {
        let cut = signature.get(..length).ok_or("no cut")?;
        assert!(rt; !answer(&levels, &key, 7, cut)?);
    }
    assert!(rt; answer(&levels, &key, 7, &signature)?);
    signature.push(0)?;
    assert!(rt; !answer(&levels, &key, 7, &signature)?);
    Ok(())
}

// the upper levels of one signature in front of the last level of another one
#[test]
fn upper_levels_of_another_tree_are_refused(rt: HostRuntime) -> Result<(), Fail> {
    let alloc = rt.alloc();
    let mut signer = signer_of(alloc, 1)?;
    let key = signer.public_key();
    let levels = UpperLevels::new(alloc);
    let first = signed(alloc, &mut signer, 0)?;
    let second = signed(alloc, &mut signer, 32)?;
    let front = first.len().checked_sub(ONE_LEVEL).ok_or("too few bytes")?;
    let mut mixed = Vec::from_slice(alloc, first.get(..front).ok_or("no front")?)?;
    mixed.extend_from_slice(second.get(front..).ok_or("no last level")?)?;
    assert!(rt; answer(&levels, &key, 0, &first)?);
    assert!(rt; !answer(&levels, &key, 32, &mixed)?);
    assert!(rt; answer(&levels, &key, 32, &second)?);
    assert!(rt; !answer(&levels, &key, 32, &mixed)?);
    assert!(rt; answer(&levels, &key, 0, &first)?);
    Ok(())
}

#[test]
fn each_key_has_its_own_signatures(rt: HostRuntime) -> Result<(), Fail> {
    let alloc = rt.alloc();
    let mut first = signer_of(alloc, 1)?;
    let mut second = signer_of(alloc, 2)?;
    let (key, other) = (first.public_key(), second.public_key());
    let fewer = HssPublicKey { levels: 2, ..key };
    let levels = UpperLevels::new(alloc);
    let signature = signed(alloc, &mut first, 7)?;
    assert!(rt; answer(&levels, &key, 7, &signature)?);
    assert!(rt; !answer(&levels, &other, 7, &signature)?);
    assert!(rt; !answer(&levels, &fewer, 7, &signature)?);
    assert!(rt; answer(&levels, &other, 7, &signed(alloc, &mut second, 7)?)?);
    assert!(rt; answer(&levels, &key, 7, &signature)?);
    Ok(())
}
