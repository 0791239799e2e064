//! Each part of a deployment that a document describes.
use bfs_deployment::{Deployment, parse_deployment};
use bfs_frames::Limits;
use bfs_testing::{holds, same};
use lms::HssPublicKey;
use std::alloc::{AllocError, Global};
use std::test::Fail;

const SMALLEST: &str = r#"
f = 0
clients = 1
replicas = ["127.0.0.1:7000"]
relay = "127.0.0.1:2049"
"#;

const LARGEST: &str = r#"
f = 1
clients = 64
replicas = ["127.0.0.1:7000", "[::1]:7001", "there:7002", "there:7003"]
relay = "127.0.0.1:2049" # NFS version 2 and MOUNT
portmap = "127.0.0.1:111"
patience = 60_000

[limits]
request = 28_701
order = 4_194_305
view_change = 67_108_865
new_view = 268_435_457
reply = 17_413
status = 2_049
ask_state = 2_050
state = 1_073_741_825
ask_report = 2_051
report = 1_048_577
call = 16_393
answer = 16_394
log = 4_294_967_295
"#;

const RAISED: Limits = Limits {
    request: 28_701,
    order: 4_194_305,
    view_change: 67_108_865,
    new_view: 268_435_457,
    reply: 17_413,
    status: 2_049,
    ask_state: 2_050,
    state: 1_073_741_825,
    ask_report: 2_051,
    report: 1_048_577,
    call: 16_393,
    answer: 16_394,
    log: 4_294_967_295,
};

// of two clients, that tools/service/signatures.py made: of two levels, and of one
const SIGNED: &str = r#"
f = 0
clients = 2
replicas = ["127.0.0.1:7000"]
relay = "127.0.0.1:2049"
signers = [
    "000000020000000500000003000102030405060708090a0b0c0d0e0fa0e11306c37bc1bbcccb535e4af6b0cd6211b96525158bddc4b2e6dc71ece9f8",
    '0000000100000005000000030102030405060708090A0B0C0D0E0F10551B1B9080EE255D23E869C6757289DFB82A13B30EC8FB32FB40A3497B376827',
]
"#;

const FIRST_SIGNER: &str =
    "000000020000000500000003000102030405060708090a0b0c0d0e0fa0e11306c37bc1bbcccb535e4af6b0cd6211b96525158bddc4b2e6dc71ece9f8";

const SECOND_SIGNER: &str =
    "0000000100000005000000030102030405060708090a0b0c0d0e0f10551b1b9080ee255d23e869c6757289dfb82a13b30ec8fb32fb40a3497b376827";

// of one client and four replicas, of which each signs by one of these keys
const REPLICAS_SIGNED: &str = r#"
f = 1
clients = 1
replicas = ["127.0.0.1:7000", "127.0.0.1:7001", "127.0.0.1:7002", "127.0.0.1:7003"]
relay = "127.0.0.1:2049"
replica_signers = [
    "000000020000000500000003000102030405060708090a0b0c0d0e0fa0e11306c37bc1bbcccb535e4af6b0cd6211b96525158bddc4b2e6dc71ece9f8",
    "0000000100000005000000030102030405060708090a0b0c0d0e0f10551b1b9080ee255d23e869c6757289dfb82a13b30ec8fb32fb40a3497b376827",
    "0000000100000005000000030102030405060708090a0b0c0d0e0f10551b1b9080ee255d23e869c6757289dfb82a13b30ec8fb32fb40a3497b376827",
    "000000020000000500000003000102030405060708090a0b0c0d0e0fa0e11306c37bc1bbcccb535e4af6b0cd6211b96525158bddc4b2e6dc71ece9f8",
]
"#;

// in small letters
fn spells(alloc: Global, signer: &HssPublicKey, digits: &str) -> Result<bool, AllocError> {
    Ok(hex::encode(alloc, signer.to_bytes())?.as_str() == digits)
}

fn addresses_are(deployment: &Deployment, wanted: &[&str]) -> bool {
    let replicas = deployment.replicas();
    replicas.len() == wanted.len()
        && replicas
            .iter()
            .zip(wanted)
            .all(|(address, wanted)| address.as_str() == *wanted)
}

#[test]
fn what_may_be_left_out_has_defaults(rt: HostRuntime) -> Result<(), Fail> {
    let deployment = parse_deployment(rt.alloc(), SMALLEST.as_bytes())?;
    same!(rt; deployment.f(), 0);
    same!(rt; deployment.clients(), 1);
    holds!(rt; addresses_are(&deployment, &["127.0.0.1:7000"]));
    holds!(rt; deployment.relay() == "127.0.0.1:2049");
    holds!(rt; deployment.portmap().is_none());
    same!(rt; deployment.patience(), 2_000);
    same!(rt; deployment.limits(), Limits::new());
    holds!(rt; deployment.signers().is_empty());
    holds!(rt; deployment.replica_signers().is_empty());
    same!(rt; Limits::new().order, 4_194_304);
    Ok(())
}

#[test]
fn each_key_says_its_part(rt: HostRuntime) -> Result<(), Fail> {
    let deployment = parse_deployment(rt.alloc(), LARGEST.as_bytes())?;
    same!(rt; deployment.f(), 1);
    same!(rt; deployment.clients(), 64);
    let wanted = ["127.0.0.1:7000", "[::1]:7001", "there:7002", "there:7003"];
    holds!(rt; addresses_are(&deployment, &wanted));
    holds!(rt; deployment.relay() == "127.0.0.1:2049");
    holds!(rt; deployment.portmap() == Some("127.0.0.1:111"));
    same!(rt; deployment.patience(), 60_000);
    same!(rt; deployment.limits(), RAISED);
    Ok(())
}

#[test]
fn clients_sign_by_keys(rt: HostRuntime) -> Result<(), Fail> {
    let alloc = rt.alloc();
    let deployment = parse_deployment(alloc, SIGNED.as_bytes())?;
    same!(rt; deployment.signers().len(), 2);
    let first = deployment.signers().first().ok_or("no signer")?;
    let second = deployment.signers().get(1).ok_or("one signer")?;
    same!(rt; (first.levels, second.levels), (2, 1));
    holds!(rt; spells(alloc, first, FIRST_SIGNER)?);
    holds!(rt; spells(alloc, second, SECOND_SIGNER)?);
    Ok(())
}

#[test]
fn replicas_sign_by_keys(rt: HostRuntime) -> Result<(), Fail> {
    let alloc = rt.alloc();
    let deployment = parse_deployment(alloc, REPLICAS_SIGNED.as_bytes())?;
    holds!(rt; deployment.signers().is_empty());
    same!(rt; deployment.replica_signers().len(), 4);
    let second = deployment.replica_signers().get(1).ok_or("one signer")?;
    let last = deployment.replica_signers().get(3).ok_or("three signers")?;
    holds!(rt; spells(alloc, second, SECOND_SIGNER)?);
    holds!(rt; spells(alloc, last, FIRST_SIGNER)?);
    Ok(())
}
