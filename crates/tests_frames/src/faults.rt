//! Documents that describe no deployment, each with what an operator is told of it.
use bfs_deployment::parse_deployment;
use bfs_testing::holds;
use std::alloc::{AllocError, Global};
use std::test::Fail;

// of a document and the lines behind it
fn told(alloc: Global, document: &[u8], more: &str) -> Result<String, AllocError> {
    let mut whole = document.to_vec(alloc)?;
    whole.extend_from_slice(more.as_bytes())?;
    match parse_deployment(alloc, whole.as_slice()) {
        Ok(deployment) => format!(in alloc; "{deployment:?}"),
        Err(error) => format!(in alloc; "{error}"),
    }
}

// keys of which one is missing or of another type, or bytes that are no document
static FIRST: &[(&[u8], &str)] = &[
    (b"f = 0 # \xff", "it isn't in UTF-8"),
    (b"f = 0\nf = 0", "it isn't TOML"),
    (b"secret = 0\nmore = 0", "there is no key \"more\""),
    (b"\"a\\nb\" = 0", "there is no key \"a\\nb\""),
    (b"", "f: it is missing"),
    (b"f = '0'", "f: it is no whole number"),
    (b"f = -1", "f: it is no number from 0 to 10"),
    (b"f = 11", "f: it is no number from 0 to 10"),
    (b"f = 0", "clients: it is missing"),
    (b"f = 0\nclients = true", "clients: it is no whole number"),
    (
        b"f = 0\nclients = 0",
        "clients: it is no number from 1 to 1024",
    ),
    (
        b"f = 0\nclients = 1025",
        "clients: it is no number from 1 to 1024",
    ),
    (b"f = 0\nclients = 1", "replicas: it is missing"),
    (
        b"f = 0\nclients = 1\nreplicas = 'a'",
        "replicas: it is no array of texts",
    ),
    (
        b"f = 0\nclients = 1\nreplicas = [7000]",
        "replicas: it is no array of texts",
    ),
    (
        b"f = 1\nclients = 1\nreplicas = ['a', 'b', 'c']",
        "replicas: there are to be 4 of them",
    ),
    (
        b"f = 0\nclients = 1\nreplicas = ['a']",
        "relay: it is missing",
    ),
    (
        b"f = 0\nclients = 1\nreplicas = ['a']\nrelay = 2049",
        "relay: it is no text",
    ),
];

const GOOD: &[u8] = b"f = 0\nclients = 1\nreplicas = ['a']\nrelay = 'b'\n";

// lines behind a good document
static MORE: &[(&str, &str)] = &[
    ("portmap = 111", "portmap: it is no text"),
    ("patience = 0.5", "patience: it is no whole number"),
    ("patience = 0", "patience: it is no number from 1 to 60000"),
    (
        "patience = 60001",
        "patience: it is no number from 1 to 60000",
    ),
    ("signers = ''", "signers: it is no array of texts"),
    ("signers = [0]", "signers: it is no array of texts"),
    ("signers = []", "signers: there are to be 1 of them"),
    ("signers = ['']", "signers: one of them is no public key"),
    (
        "replica_signers = ''",
        "replica_signers: it is no array of texts",
    ),
    (
        "replica_signers = []",
        "replica_signers: there are to be 1 of them",
    ),
    (
        "replica_signers = ['']",
        "replica_signers: one of them is no public key",
    ),
    ("limits = 1", "limits: it is no table"),
    (
        "[limits]\norder = 4194304\norders = 1",
        "limits: there is no key \"orders\"",
    ),
    (
        "[limits]\nview_change = '1'",
        "limits.view_change: it is no whole number",
    ),
    (
        "[limits]\nrequest = 28699",
        "limits.request: it is no number from 28700 to 4294967295",
    ),
    (
        "[limits]\nlog = 4294967296",
        "limits.log: it is no number from 4096 to 4294967295",
    ),
];

// a good key, in pieces: its levels, its types, and its other bytes
const LEVELS: &str = "00000002";

const TYPES: &str = "0000000500000003";

const OTHERS: &str =
    "000102030405060708090a0b0c0d0e0fa0e11306c37bc1bbcccb535e4af6b0cd6211b96525158bddc4b2e6dc71ece9f8";

// pieces between them, and behind a good document
static SIGNERS: &[(&[&str], &str)] = &[
    (&["['", LEVELS, TYPES, OTHERS, "']"], ""),
    (
        &[
            "['", LEVELS, TYPES, OTHERS, "', '", LEVELS, TYPES, OTHERS, "']",
        ],
        "signers: there are to be 1 of them",
    ),
    (
        &["['00000000", TYPES, OTHERS, "']"],
        "signers: one of them is no public key",
    ),
    (
        &["['00000009", TYPES, OTHERS, "']"],
        "signers: one of them is no public key",
    ),
    (
        &["['", LEVELS, "0000000400000003", OTHERS, "']"],
        "signers: one of them is no public key",
    ),
    (
        &["['", LEVELS, "0000000500000005", OTHERS, "']"],
        "signers: one of them is no public key",
    ),
    (
        &["['", LEVELS, TYPES, OTHERS, "0']"],
        "signers: one of them is no public key",
    ),
    (
        &["['", LEVELS, TYPES, OTHERS, "00']"],
        "signers: one of them is no public key",
    ),
    (
        &["['", LEVELS, TYPES, OTHERS, "', 0]"],
        "signers: it is no array of texts",
    ),
];

fn signers_of(alloc: Global, pieces: &[&str]) -> Result<String, AllocError> {
    let mut lines = String::from_str(alloc, "signers = ")?;
    for piece in pieces {
        lines.push_str(piece)?;
    }
    Ok(lines)
}

#[test]
fn a_signer_for_each_client_has_a_key(rt: HostRuntime) -> Result<(), Fail> {
    let alloc = rt.alloc();
    for (pieces, wanted) in SIGNERS.iter() {
        let lines = signers_of(alloc, pieces)?;
        let said = told(alloc, GOOD, lines.as_str())?;
        holds!(rt; said.as_str() == *wanted || wanted.is_empty() && said.as_str().starts_with("Deployment"));
    }
    Ok(())
}

#[test]
fn each_fault_is_told_with_its_key(rt: HostRuntime) -> Result<(), Fail> {
    let alloc = rt.alloc();
    for (document, wanted) in FIRST.iter() {
        holds!(rt; told(alloc, document, "")?.as_str() == *wanted);
    }
    for (lines, wanted) in MORE.iter() {
        holds!(rt; told(alloc, GOOD, lines)?.as_str() == *wanted);
    }
    Ok(())
}
