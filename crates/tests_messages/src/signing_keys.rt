//! What makes a client's signatures, as its private document says it. tools/service/signatures.py made the public key, which is written by the standard (RFC 8554)
//! apart from crates/lms.
use bfs_settings::{SigningKey, parse_signing_key};
use bfs_testing::asserts::compared;
use bfs_testing::{holds, same};
use lms::{LmsType, OtsType, Signer, TreeTypes};
use std::alloc::{AllocError, Global};
use std::test::Fail;

const ID: &[u8] = b"id = '000102030405060708090a0b0c0d0E0F'\n";

const SEED: &[u8] =
    b"seed = \"00112233445566778899aabbccddeeffFFEEDDCCBBAA99887766554433221100\"\n";

const HEIGHTS: &[u8] = b"heights = [5, 10, 15]\n";

// of heights 5 and 5
const PUBLIC_KEY: &str =
    "000000020000000500000003000102030405060708090a0b0c0d0e0f49444b1d7e3f200fa44b12b004b60a1eb065d19119d31ab44e6239634b903a3e";

// parts behind one another
fn document(alloc: Global, parts: &[&[u8]]) -> Result<Vec<u8>, AllocError> {
    let mut document = Vec::new(alloc);
    for part in parts {
        document.extend_from_slice(part)?;
    }
    Ok(document)
}

// which bytes the digits spell
fn is_first(key: &SigningKey) -> bool {
    let id = [0, 1, 2, 3, 4, 5, 6, 7, 8, 9, 10, 11, 12, 13, 14, 15];
    let front = [0x00, 0x11, 0x22, 0x33];
    let end = [0x33, 0x22, 0x11, 0x00];
    key.first.id == id
        && key.first.seed.starts_with(&front)
        && key.first.seed.ends_with(&end)
        && (key.first.lms, key.first.ots) == (LmsType::H5, OtsType::W4)
}

/// `.ci/refusals` runs this one with each growth of memory refused in turn.
#[test]
fn a_document_says_what_makes_signatures(rt: HostRuntime) -> Result<(), Fail> {
    let alloc = rt.alloc();
    let key = parse_signing_key(alloc, &document(alloc, &[HEIGHTS, SEED, ID])?)?;
    holds!(rt; is_first(&key));
    let of = |lms| TreeTypes {
        lms,
        ots: OtsType::W4,
    };
    holds!(rt; key.below.as_slice() == [of(LmsType::H10), of(LmsType::H15)].as_slice());
    Ok(())
}

#[test]
fn a_signer_of_it_has_the_key_that_others_make(rt: HostRuntime) -> Result<(), Fail> {
    let alloc = rt.alloc();
    let key = parse_signing_key(alloc, &document(alloc, &[ID, SEED, b"heights = [5, 5]\n"])?)?;
    let signer = Signer::new(alloc, key.first, key.below.as_slice())?;
    let spelled = hex::encode(alloc, signer.public_key().to_bytes())?;
    holds!(rt; spelled.as_str() == PUBLIC_KEY);
    Ok(())
}

/// The parts of a document, and the code of its refusal, or 0.
struct Case(&'static [&'static [u8]], u32);

fn refusal(alloc: Global, parts: &[&[u8]]) -> Result<u32, AllocError> {
    match parse_signing_key(alloc, &document(alloc, parts)?) {
        Ok(_) => Ok(0),
        Err(error) => Ok(error.code()),
    }
}

// the place of the first document that comes to something else
fn first_wrong(alloc: Global, cases: &[Case]) -> Result<Option<usize>, AllocError> {
    for (place, case) in cases.iter().enumerate() {
        if refusal(alloc, case.0)? != case.1 {
            return Ok(Some(place));
        }
    }
    Ok(None)
}

static LEVELS: [Case; 14] = [
    Case(&[ID, SEED, b"heights = [5]"], 0),
    Case(&[ID, SEED, b"heights = [10]"], 0),
    Case(&[ID, SEED, b"heights = [15, 15]"], 0),
    Case(&[ID, SEED, b"heights = [10, 10, 10, 10]"], 0),
    Case(&[ID, SEED, b"heights = []"], 43),
    Case(&[ID, SEED, b"heights = [5, 5, 5, 5, 5, 5, 5, 5, 5]"], 43),
    Case(&[ID, SEED, b"heights = [20]"], 43),
    Case(&[ID, SEED, b"heights = [5, 6]"], 43),
    Case(&[ID, SEED, b"heights = [-5]"], 43),
    Case(&[ID, SEED, b"heights = [4294967301]"], 43),
    Case(&[ID, SEED, b"heights = ['5']"], 43),
    Case(&[ID, SEED, b"heights = [5.0]"], 43),
    Case(&[ID, SEED, b"heights = 5"], 43),
    Case(&[ID, SEED], 43),
];

#[test]
fn there_are_one_to_eight_levels(rt: HostRuntime) -> Result<(), Fail> {
    compared(first_wrong(rt.alloc(), &LEVELS)?, None)?;
    Ok(())
}

const DIGITS: &[u8] = b"00112233445566778899aabbccddeeff";

static DIGITS_OF_SECRETS: [Case; 10] = [
    Case(&[b"id = '", DIGITS, b"'\n", SEED, HEIGHTS], 0),
    Case(&[b"id = '", DIGITS, b"0'\n", SEED, HEIGHTS], 43),
    Case(&[b"id = '", DIGITS, b"00'\n", SEED, HEIGHTS], 43),
    Case(&[b"id = '", DIGITS, DIGITS, b"'\n", SEED, HEIGHTS], 43),
    Case(&[b"id = '", &[b'g'; 32], b"'\n", SEED, HEIGHTS], 43),
    Case(&[b"id = 0\n", SEED, HEIGHTS], 43),
    Case(&[ID, b"seed = '", DIGITS, DIGITS, b"'\n", HEIGHTS], 0),
    Case(&[ID, b"seed = '", DIGITS, b"'\n", HEIGHTS], 43),
    Case(&[ID, b"seed = '", DIGITS, DIGITS, b"0'\n", HEIGHTS], 43),
    Case(&[ID, b"seed = ['", DIGITS, DIGITS, b"']\n", HEIGHTS], 43),
];

#[test]
fn an_id_has_32_digits_and_a_seed_64(rt: HostRuntime) -> Result<(), Fail> {
    compared(first_wrong(rt.alloc(), &DIGITS_OF_SECRETS)?, None)?;
    Ok(())
}

static FAULTS: [Case; 7] = [
    Case(&[ID, SEED, HEIGHTS], 0),
    Case(&[], 43),
    Case(&[SEED, HEIGHTS], 43),
    Case(&[ID, HEIGHTS], 43),
    Case(&[ID, SEED, HEIGHTS, b"index = 0\n"], 43),
    Case(&[ID, SEED, HEIGHTS, SEED], 43),
    Case(&[ID, SEED, HEIGHTS, b"# \xff\n"], 43),
];

#[test]
fn other_keys_and_texts_are_faults(rt: HostRuntime) -> Result<(), Fail> {
    compared(first_wrong(rt.alloc(), &FAULTS)?, None)?;
    Ok(())
}
