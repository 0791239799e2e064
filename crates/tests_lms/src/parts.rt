//! Typecodes of the standard, public keys read back, and the last index.
use crate::vectors::signer;
use lms::{
    HssPublicKey, LmsType, OtsType, PrivateKey, PublicKey, what_is_signed_verifies,
    what_levels_sign_verifies,
};
use std::test::Fail;

// the typecode of one-time signatures, and their chains
static OTS_TYPES: [(u32, u16); 4] = [(1, 265), (2, 133), (3, 67), (4, 34)];

// the typecode of trees, their height and their leaves
static LMS_TYPES: [(u32, u32, u32); 5] = [
    (5, 5, 32),
    (6, 10, 1024),
    (7, 15, 32_768),
    (8, 20, 1_048_576),
    (9, 25, 33_554_432),
];

const KEY: PrivateKey = PrivateKey {
    lms: LmsType::H5,
    ots: OtsType::W2,
    id: [1; 16],
    seed: [2; 32],
};

#[test]
fn types_by_their_typecodes(rt: HostRuntime) -> Result<(), Fail> {
    for (code, chains) in OTS_TYPES.iter() {
        let ots = OtsType::from_code(*code).ok_or("no type")?;
        assert_eq!(rt; (ots.code(), ots.chain_count()), (*code, *chains));
    }
    for (code, height, leaves) in LMS_TYPES.iter() {
        let lms = LmsType::from_code(*code).ok_or("no type")?;
        assert_eq!(rt;
            (lms.code(), lms.height(), lms.leaf_count()),
            (*code, *height, *leaves)
        );
    }
    assert_eq!(rt; OtsType::from_code(0), None);
    assert_eq!(rt; OtsType::from_code(5), None);
    assert_eq!(rt; LmsType::from_code(4), None);
    assert_eq!(rt; LmsType::from_code(10), None);
    Ok(())
}

#[test]
fn public_keys_are_read_back(rt: HostRuntime) -> Result<(), Fail> {
    let signer = signer(rt.alloc(), KEY, &[]).ok().ok_or("no signer")?;
    let key = signer.public_key();
    assert_eq!(rt; HssPublicKey::from_bytes(&key.to_bytes()), Some(key));
    assert_eq!(rt; PublicKey::from_bytes(&key.key.to_bytes()), Some(key.key));
    Ok(())
}

#[test]
fn the_last_index(rt: HostRuntime) -> Result<(), Fail> {
    let signer = signer(rt.alloc(), KEY, &[]).ok().ok_or("no signer")?;
    assert!(rt; signer.has_index(31));
    assert!(rt; !signer.has_index(32));
    Ok(())
}

#[test]
fn laws_have_no_body() {
    what_is_signed_verifies();
    what_levels_sign_verifies();
}
