//! Settings: what a document says and where it breaks the rules, and the keys that principals have under them.
use bfs_auth::{Keys, Principal};
use bfs_settings::{Settings, SettingsError, default_settings, parse_settings};
use bfs_testing::asserts::compared;
use bfs_testing::{holds, same};
use std::alloc::{AllocError, Global};
use std::test::Fail;

// the code of the refusal, and 0 where there is none
fn refusal(alloc: Global, document: &[u8]) -> u32 {
    match parse_settings(alloc, document) {
        Ok(_) => 0,
        Err(error) => error.code(),
    }
}

/// A document, and the code of its refusal, or 0.
struct Case(&'static [u8], u32);

// the place of the first document that comes to something else
fn first_wrong(alloc: Global, cases: &[Case]) -> Option<usize> {
    for (place, case) in cases.iter().enumerate() {
        if refusal(alloc, case.0) != case.1 {
            return Some(place);
        }
    }
    None
}

fn numbers(settings: &Settings) -> (u32, u32, u32) {
    (settings.f(), settings.replicas(), settings.clients())
}

// a document whose secret has so many bytes
fn with_secret_of(alloc: Global, bytes: usize) -> Result<Vec<u8>, AllocError> {
    let mut document = Vec::new(alloc);
    document.extend_from_slice(b"secret = \"")?;
    for _ in 0..bytes {
        document.extend_from_slice(b"a5")?;
    }
    document.extend_from_slice(b"\"\n")?;
    Ok(document)
}

#[test]
fn nothing_says_the_default(rt: HostRuntime) -> Result<(), Fail> {
    let alloc = rt.alloc();
    let settings = parse_settings(alloc, b"")?;
    same!(rt; numbers(&settings), (0, 1, 16));
    holds!(rt; settings.secret() == [0; 32].as_slice());
    let settings = default_settings(alloc)?;
    same!(rt; numbers(&settings), (0, 1, 16));
    holds!(rt; settings.secret() == [0; 32].as_slice());
    Ok(())
}

/// `.ci/refusals` runs this one with each growth of memory refused in turn.
#[test]
fn each_key_says_its_setting(rt: HostRuntime) -> Result<(), Fail> {
    let alloc = rt.alloc();
    let settings = parse_settings(alloc, b"f = 1")?;
    same!(rt; numbers(&settings), (1, 4, 16));
    let document = b"# three keys\nsecret = '0aFf'\nclients = 0x20\nf = 2\n".as_slice();
    let settings = parse_settings(alloc, document)?;
    same!(rt; numbers(&settings), (2, 7, 32));
    holds!(rt; settings.secret() == [10, 255].as_slice());
    Ok(())
}

static LIMITS: [Case; 9] = [
    Case(b"f = 0", 0),
    Case(b"f = -1", 43),
    Case(b"f = 10", 0),
    Case(b"f = 11", 43),
    Case(b"f = 4294967296", 43),
    Case(b"clients = 1", 0),
    Case(b"clients = 0", 43),
    Case(b"clients = 1024", 0),
    Case(b"clients = 1025", 43),
];

#[test]
fn each_limit_is_allowed_and_its_neighbour_refused(rt: HostRuntime) -> Result<(), Fail> {
    compared(first_wrong(rt.alloc(), &LIMITS), None)?;
    Ok(())
}

static SECRETS: [Case; 4] = [
    Case(b"secret = \"00\"", 0),
    Case(b"secret = \"\"", 43),
    Case(b"secret = \"0\"", 43),
    Case(b"secret = \"0g\"", 43),
];

#[test]
fn a_secret_has_1_to_64_bytes(rt: HostRuntime) -> Result<(), Fail> {
    let alloc = rt.alloc();
    compared(first_wrong(alloc, &SECRETS), None)?;
    same!(rt; refusal(alloc, with_secret_of(alloc, 64)?.as_slice()), 0);
    same!(rt; refusal(alloc, with_secret_of(alloc, 65)?.as_slice()), 43);
    Ok(())
}

static FAULTS: [Case; 9] = [
    Case(b"g = 1", 43),
    Case(b"F = 1", 43),
    Case(b"f = \"1\"", 43),
    Case(b"f = 1.0", 43),
    Case(b"secret = 0", 43),
    Case(b"f = 1\nf = 1\n", 43),
    Case(b"[f]\n", 43),
    Case(b"f", 43),
    Case(b"# \xff\n", 43),
];

#[test]
fn other_keys_types_and_texts_are_faults(rt: HostRuntime) -> Result<(), Fail> {
    compared(first_wrong(rt.alloc(), &FAULTS), None)?;
    Ok(())
}

#[test]
fn settings_are_made_within_their_limits(rt: HostRuntime) -> Result<(), Fail> {
    let alloc = rt.alloc();
    let settings = Settings::new(alloc, 10, 1_024, &[7; 64])?;
    same!(rt; numbers(&settings), (10, 31, 1_024));
    holds!(rt; settings.secret() == [7; 64].as_slice());
    let refused = Settings::new(alloc, 11, 1_024, &[7; 64]);
    holds!(rt; matches!(&refused, Err(SettingsError::BadSettings)));
    Ok(())
}

// settings are within what keys ask for
fn keys_of_replica(alloc: Global, settings: &Settings) -> Result<Keys, Fail> {
    let keys = Keys::derive(
        alloc,
        settings.secret(),
        Principal::Replica(0),
        settings.replicas(),
        settings.clients(),
    )?;
    Ok(keys)
}

#[test]
fn principals_have_keys_under_settings(rt: HostRuntime) -> Result<(), Fail> {
    let alloc = rt.alloc();
    let keys = keys_of_replica(alloc, &parse_settings(alloc, b"f = 1\nclients = 3\n")?)?;
    same!(rt; (keys.replicas(), keys.clients()), (4, 3));
    Ok(())
}
