//! SHA-256 (FIPS 180-4, with the vectors that its authors publish beside it) and HMAC over it (RFC 4231 section 4).
use bfs_auth::hmac;
use bfs_testing::words::spells;
use sha2::{Digest, Sha256};
use std::alloc::Global;
use std::test::Fail;

// 896 bits, more than a block
const LONG: &[u8] =
    b"abcdefghbcdefghicdefghijdefghijkefghijklfghijklmghijklmnhijklmnoijklmnopjklmnopqklmnopqrlmnopqrsmnopqrstnopqrstu";

const LONG_DIGEST: &str = "cf5b16a778af8380036ce59e7b0492370b249b11e8f07a51afac45037afee9d1";

fn has_digest(alloc: Global, bytes: &[u8], wanted: &str) -> Result<(), Fail> {
    spells(alloc, &Sha256::digest(bytes), wanted)
}

fn has_hmac(alloc: Global, key: &[u8], text: &[u8], wanted: &str) -> Result<(), Fail> {
    spells(alloc, &hmac(key, text), wanted)
}

#[test]
fn digests_of_fips_180_4(rt: HostRuntime) -> Result<(), Fail> {
    let alloc = rt.alloc();
    has_digest(
        alloc,
        b"",
        "e3b0c44298fc1c149afbf4c8996fb92427ae41e4649b934ca495991b7852b855",
    )?;
    has_digest(
        alloc,
        b"abc",
        "ba7816bf8f01cfea414140de5dae2223b00361a396177a9cb410ff61f20015ad",
    )?;
    has_digest(
        alloc,
        b"abcdbcdecdefdefgefghfghighijhijkijkljklmklmnlmnomnopnopq",
        "248d6a61d20638b8e5c026930c3e6039a33ce45964ff2167f6ecedd419db06c1",
    )?;
    has_digest(alloc, LONG, LONG_DIGEST)
}

#[test]
fn digest_of_a_million_letters(rt: HostRuntime) -> Result<(), Fail> {
    let mut hasher = Sha256::new();
    for _ in 0..1_000 {
        hasher.update([b'a'; 1_000]);
    }
    spells(
        rt.alloc(),
        &hasher.finalize(),
        "cdc76e5c9914fb9281a1c7e284d73e67f1809a48a497200e046d39ccc7112cd0",
    )
}

#[test]
fn a_long_key_is_hashed_first(rt: HostRuntime) -> Result<(), Fail> {
    let alloc = rt.alloc();
    let digest = hex::decode(alloc, LONG_DIGEST)?;
    let wanted = "fdc774c262d788622c8cd4bf27625db680a500bd2502c33e63be3b3a85031703";
    has_hmac(alloc, LONG, b"x", wanted)?;
    has_hmac(alloc, digest.as_slice(), b"x", wanted)
}

#[test]
fn short_keys_of_rfc_4231(rt: HostRuntime) -> Result<(), Fail> {
    let alloc = rt.alloc();
    has_hmac(
        alloc,
        &[0x0b; 20],
        b"Hi There",
        "b0344c61d8db38535ca8afceaf0bf12b881dc200c9833da726e9376c2e32cff7",
    )?;
    has_hmac(
        alloc,
        b"Jefe",
        b"what do ya want for nothing?",
        "5bdcc146bf60754e6a042426089575c75a003f089d2739839dec58b964ec3843",
    )?;
    has_hmac(
        alloc,
        &[0xaa; 20],
        &[0xdd; 50],
        "773ea91e36800e46854db8ebd09181a72959098b3ef8c122d9635514ced565fe",
    )?;
    let numbers: [u8; 25] = [
        1, 2, 3, 4, 5, 6, 7, 8, 9, 10, 11, 12, 13, 14, 15, 16, 17, 18, 19, 20, 21, 22, 23, 24, 25,
    ];
    has_hmac(
        alloc,
        &numbers,
        &[0xcd; 50],
        "82558a389a443c0ea4cc819899f2083a85f0faa3e578f8077a2e3ff46729665b",
    )
}

// of which the standard has the first 128 bits
#[test]
fn truncated_hash_of_rfc_4231(rt: HostRuntime) -> Result<(), Fail> {
    let hash = hmac(&[0x0c; 20], b"Test With Truncation");
    spells(rt.alloc(), &hash[..16], "a3b6167473100ee06e0c796c2955552b")
}

#[test]
fn long_keys_of_rfc_4231(rt: HostRuntime) -> Result<(), Fail> {
    let alloc = rt.alloc();
    has_hmac(
        alloc,
        &[0xaa; 131],
        b"Test Using Larger Than Block-Size Key - Hash Key First",
        "60e431591ee0b67f0d8a26aacbf5b77f8e0bc6213728c5140546040f0ee37f54",
    )?;
    has_hmac(
        alloc,
        &[0xaa; 131],
        b"This is a test using a larger than block-size key and a larger than block-size data. The key needs to be hashed before being used by the HMAC algorithm.",
        "9b09ffa71b942fcb27635fbcd5b0e944bfdc63644f0713938a7f51535c3a35e2",
    )
}
