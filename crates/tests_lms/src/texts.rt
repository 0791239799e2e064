//! Signatures of several texts at once: roots that others computed, and signatures that were changed.
use crate::vectors::signer;
use bfs_signatures::{
    MOST_TEXTS, a_root_tells_its_texts, height_is_least, leaf_hash, leaf_hasher, passes_like,
    root_of, root_signature_of, sign_all, verify_leaf, what_is_signed_verifies,
};
use lms::{LmsType, OtsType, PrivateKey, SignError, hss_verify};
use sha2::{Digest, Sha256};
use std::alloc::{AllocError, Global};
use std::test::Fail;

// texts whose trees the tests of Certificate Transparency have
static TEXTS: [&str; 8] = [
    "",
    "00",
    "10",
    "2021",
    "3031",
    "40414243",
    "5051525354555657",
    "606162636465666768696a6b6c6d6e6f",
];

// how many of them, how many leaves their tree has, and its root
static ROOTS: [(usize, usize, &str); 6] = [
    (
        1,
        1,
        "6e340b9cffb37a989ca544e6bb780a2c78901d3fb33738768511a30617afa01d",
    ),
    (
        2,
        2,
        "fac54203e7cc696cf0dfcb42c92a1d9dbaf70ad9e621f4bd8d98662f00e3c125",
    ),
    (
        3,
        4,
        "460ad231a43e5373c0d6cb28b14b9a4be14a6970af5d3677e1b8ad39afe736df",
    ),
    (
        4,
        4,
        "d37ee418976dd95753c1c73862b9398fa2a2cf9b4ff0fdfe8b30cd95209614b7",
    ),
    (
        5,
        8,
        "2d309fb463e2f34de4c8d93c9301f419ec3c833086cf8c74b226036c18f6981e",
    ),
    (
        8,
        8,
        "5dc9da79a70659a9ad559cb701ded9a2ab9d823aad2f4960cfe370eff4604328",
    ),
];

// number and height, and the hashes from a leaf of all eight up to the root
static PATHS: [(u32, u32, &str); 3] = [
    (
        0,
        3,
        "96a296d224f285c67bee93c30f8a309157f0daa35dc5b87e410b78630a09cfc75f083f0a1a33ca076a95279832580db3e0ef4584bdff1f54c8a360f50de3031e6b47aaf29ee3c2af9af889bc1fb9254dabd31177f16232dd6aab035ca39bf6e4",
    ),
    (
        5,
        3,
        "bc1a0643b12e4d2d7c77918f44e0f4f79a838b6cf9ec5b5c283e1f4d88599e6bca854ea128ed050b41b35ffc1b87b8eb2bde461e9e3b5596ece6b9d5975a0ae0d37ee418976dd95753c1c73862b9398fa2a2cf9b4ff0fdfe8b30cd95209614b7",
    ),
    (
        6,
        3,
        "46f6ffadd3d06a09ff3c5860d2755c8b9819db7df44251788c7d8e3180de8eb10ebc5d3437fbe2db158b9f126a1d118e308181031d0a949f8dededebc558ef6ad37ee418976dd95753c1c73862b9398fa2a2cf9b4ff0fdfe8b30cd95209614b7",
    ),
];

const KEY: PrivateKey = PrivateKey {
    lms: LmsType::H5,
    ots: OtsType::W4,
    id: [3; 16],
    seed: [4; 32],
};

const INDEX: u64 = 17;

// some of the texts, and their signatures
#[derive(Drop)]
struct Turn {
    public_key: [u8; 60],
    leaves: Vec<[u8; 32]>,
    signatures: Vec<Vec<u8>>,
}

fn leaves(alloc: Global, count: usize) -> Result<Vec<[u8; 32]>, Fail> {
    let mut leaves = Vec::new(alloc);
    for text in TEXTS.iter().take(count) {
        let text = hex::decode(alloc, *text).ok().ok_or("no bytes")?;
        leaves.push(leaf_hash(&text))?;
    }
    Ok(leaves)
}

fn sign(alloc: Global, count: usize) -> Result<Turn, Fail> {
    let mut signer = signer(alloc, KEY, &[]).ok().ok_or("no signer")?;
    let leaves = leaves(alloc, count)?;
    if leaves.len() > MOST_TEXTS {
        return Err(Fail::from("too many texts"));
    }
    let signatures = sign_all(alloc, &mut signer, INDEX, &leaves)
        .ok()
        .ok_or("no signatures")?;
    Ok(Turn {
        public_key: signer.public_key().to_bytes(),
        leaves,
        signatures,
    })
}

fn hash(text: &str) -> Result<[u8; 32], Fail> {
    let mut hash = [0; 32];
    hex::decode_to_slice(text, &mut hash).ok().ok_or("no hash")?;
    Ok(hash)
}

// the hashes of a level over another one
fn level_over(alloc: Global, level: &[[u8; 32]]) -> Result<Vec<[u8; 32]>, AllocError> {
    let mut over = Vec::new(alloc);
    let mut left: Option<[u8; 32]> = None;
    for node in level {
        match left {
            None => left = Some(*node),
            Some(first) => {
                let mut hasher = Sha256::new();
                hasher.update([1]);
                hasher.update(first);
                hasher.update(*node);
                over.push(hasher.finalize())?;
                left = None;
            }
        }
    }
    Ok(over)
}

// the root of a tree with so many leaves, of which the last ones may be missing
fn own_root(alloc: Global, leaves: &[[u8; 32]], width: usize) -> Result<[u8; 32], Fail> {
    let mut level = Vec::from_slice(alloc, leaves)?;
    for _missing in leaves.len()..width {
        level.push([0; 32])?;
    }
    for _level in 0..3 {
        if level.len() > 1 {
            level = level_over(alloc, &level)?;
        }
    }
    Ok(*level.first().ok_or("no root")?)
}

#[test]
fn roots_of_trees(rt: HostRuntime) -> Result<(), Fail> {
    let alloc = rt.alloc();
    for (count, width, root) in ROOTS.iter() {
        let root = hash(root)?;
        assert_eq!(rt; own_root(alloc, &leaves(alloc, *count)?, *width)?, root);
        let turn = sign(alloc, *count)?;
        for (leaf, signature) in turn.leaves.iter().zip(turn.signatures.iter()) {
            assert_eq!(rt; root_of(leaf, signature), Some(root));
        }
    }
    Ok(())
}

#[test]
fn roots_by_paths(rt: HostRuntime) -> Result<(), Fail> {
    let alloc = rt.alloc();
    let leaves = leaves(alloc, 8)?;
    let root = hash("5dc9da79a70659a9ad559cb701ded9a2ab9d823aad2f4960cfe370eff4604328")?;
    for (number, height, path) in PATHS.iter() {
        let leaf = leaves.get(*number as usize).ok_or("no leaf")?;
        let mut bytes = Vec::from_slice(alloc, &number.to_be_bytes())?;
        bytes.extend_from_slice(&height.to_be_bytes())?;
        bytes.extend_from_slice(&hex::decode(alloc, *path).ok().ok_or("no bytes")?)?;
        assert_eq!(rt; root_of(leaf, &bytes), Some(root));
        assert_eq!(rt; root_signature_of(&bytes).map(|rest| rest.len()), Some(0));
        bytes.push(7)?;
        assert_eq!(rt; root_of(leaf, &bytes), Some(root));
        assert_eq!(rt; root_signature_of(&bytes).map(|rest| rest.len()), Some(1));
    }
    Ok(())
}

#[test]
fn each_text_has_a_signature(rt: HostRuntime) -> Result<(), Fail> {
    let alloc = rt.alloc();
    for (count, width, _) in ROOTS.iter() {
        let turn = sign(alloc, *count)?;
        assert_eq!(rt; turn.signatures.len(), *count);
        let root = own_root(alloc, &turn.leaves, *width)?;
        for (leaf, signature) in turn.leaves.iter().zip(turn.signatures.iter()) {
            assert!(rt; verify_leaf(&turn.public_key, leaf, signature));
            let rest = root_signature_of(signature).ok_or("no signature of the root")?;
            assert!(rt; hss_verify(&turn.public_key, &root, rest));
        }
    }
    Ok(())
}

#[test]
fn a_leaf_by_pieces(rt: HostRuntime) -> Result<(), Fail> {
    let mut hasher = leaf_hasher();
    hasher.update(b"two ");
    hasher.update(b"pieces");
    assert_eq!(rt; hasher.finalize(), leaf_hash(b"two pieces"));
    Ok(())
}

#[test]
fn each_byte_that_is_changed_is_refused(rt: HostRuntime) -> Result<(), Fail> {
    let mut turn = sign(rt.alloc(), 3)?;
    let leaf = *turn.leaves.last().ok_or("no leaf")?;
    let signature = turn.signatures.last_mut().ok_or("no signature")?;
    for place in 0..signature.len() {
        if place < signature.len() {
            signature[place] ^= 1;
            assert!(rt; !verify_leaf(&turn.public_key, &leaf, signature));
            signature[place] ^= 1;
        }
    }
    assert!(rt; verify_leaf(&turn.public_key, &leaf, signature));
    Ok(())
}

#[test]
fn each_cut_is_refused(rt: HostRuntime) -> Result<(), Fail> {
    let turn = sign(rt.alloc(), 3)?;
    let leaf = turn.leaves.last().ok_or("no leaf")?;
    let signature = turn.signatures.last().ok_or("no signature")?;
    for length in 0..signature.len() {
        let cut = signature.get(..length).ok_or("no cut")?;
        assert!(rt; !verify_leaf(&turn.public_key, leaf, cut));
        assert!(rt; root_of(leaf, cut).is_some() == (length >= 72));
    }
    Ok(())
}

#[test]
fn another_text_is_refused(rt: HostRuntime) -> Result<(), Fail> {
    let turn = sign(rt.alloc(), 5)?;
    for (place, leaf) in turn.leaves.iter().enumerate() {
        for (other, signature) in turn.signatures.iter().enumerate() {
            assert!(rt; verify_leaf(&turn.public_key, leaf, signature) == (place == other));
        }
    }
    let signature = turn.signatures.first().ok_or("no signature")?;
    assert!(rt; !verify_leaf(&turn.public_key, &[0; 32], signature));
    Ok(())
}

#[test]
fn other_numbers_and_heights_are_refused(rt: HostRuntime) -> Result<(), Fail> {
    let mut turn = sign(rt.alloc(), 3)?;
    let leaf = *turn.leaves.last().ok_or("no leaf")?;
    let signature = turn.signatures.last_mut().ok_or("no signature")?;
    for number in 0..16 {
        if signature.len() > 7 {
            signature[3] = number;
            assert!(rt; verify_leaf(&turn.public_key, &leaf, signature) == (number == 2));
            assert!(rt; root_of(&leaf, signature).is_some() == (number < 4));
            signature[3] = 2;
        }
    }
    for height in 0..16 {
        if signature.len() > 7 {
            signature[7] = height;
            assert!(rt; verify_leaf(&turn.public_key, &leaf, signature) == (height == 2));
            assert!(rt; root_of(&leaf, signature).is_some() == (height >= 2 && height <= 12));
            signature[7] = 2;
        }
    }
    Ok(())
}

#[test]
fn an_index_behind_the_last_one(rt: HostRuntime) -> Result<(), Fail> {
    let alloc = rt.alloc();
    let mut signer = signer(alloc, KEY, &[]).ok().ok_or("no signer")?;
    assert!(rt; sign_all(alloc, &mut signer, 31, &[[1; 32]]).is_ok());
    match sign_all(alloc, &mut signer, 32, &[[1; 32]]) {
        Ok(_) => Err(Fail::from("signed")),
        Err(error) => {
            assert_eq!(rt; error, SignError::NoIndex);
            Ok(())
        }
    }
}

#[test]
fn laws_of_texts_have_no_body() {
    passes_like();
    what_is_signed_verifies();
    height_is_least();
    a_root_tells_its_texts();
}
