//! Bytes that were cut or changed, and those of others.
use crate::lives::lived;
use crate::replica::{MEMBERS, refusal, restored};
use bfs_saving::seal;
use bfs_testing::changes::Changes;
use bfs_testing::{holds, same};
use bfs_testing_nodes::members::Members;
use bfs_testing_nodes::said::said_or;
use bfs_types::Memory;
use std::alloc::Global;
use std::sync::Wait;
use std::test::Fail;
use std::thread::Threads;

// how many changed texts a test reads, where `BFS_TEXTS` doesn't say it
const TEXTS: u64 = 1_000;

// of replica 2 after so many steps
fn text<R: Threads + Wait + Sync>(rt: &R, alloc: Global, steps: u32) -> Result<Vec<u8>, Memory> {
    let lives = lived(rt, alloc, 5, steps)?;
    match lives.node(2) {
        Some(node) => node.save(),
        None => Err(Memory),
    }
}

#[test]
fn fronts_are_refused(rt: HostRuntime) -> Result<(), Fail> {
    let alloc = rt.alloc();
    let text = text(&rt, alloc, 0)?;
    for count in 0..text.len() {
        holds!(rt; refusal(&rt, alloc, MEMBERS, 2, &text[..count])? == Some(20));
    }
    same!(rt; refusal(&rt, alloc, MEMBERS, 2, &text)?, None);
    Ok(())
}

#[test]
fn those_of_others_are_refused(rt: HostRuntime) -> Result<(), Fail> {
    let alloc = rt.alloc();
    let text = text(&rt, alloc, 200)?;
    let more = Members { f: 1, clients: 3 };
    let larger = Members { f: 2, clients: 2 };
    same!(rt; refusal(&rt, alloc, MEMBERS, 1, &text)?, Some(45));
    same!(rt; refusal(&rt, alloc, more, 2, &text)?, Some(44));
    same!(rt; refusal(&rt, alloc, larger, 2, &text)?, Some(44));
    let mut later = text;
    if later.len() > 8 {
        later[7] = 2;
    }
    same!(rt; refusal(&rt, alloc, MEMBERS, 2, &later)?, Some(22));
    Ok(())
}

#[test]
fn changed_ones_are_refused(rt: HostRuntime) -> Result<(), Fail> {
    let alloc = rt.alloc();
    let (text, other) = (text(&rt, alloc, 400)?, text(&rt, alloc, 300)?);
    let mut changes = Changes { state: 1 };
    for _ in 0..said_or(&rt, "BFS_TEXTS", TEXTS) {
        let (_, changed) = changes.changed(alloc, &text, &other)?;
        let refused = refusal(&rt, alloc, MEMBERS, 2, &changed)?.is_some();
        holds!(rt; refused || changed.as_slice() == text.as_slice() || changed.as_slice() == other.as_slice());
    }
    Ok(())
}

// without its digest
fn body(text: &[u8]) -> &[u8] {
    match text.split_at_checked(text.len().saturating_sub(32)) {
        Some((body, _)) => body,
        None => text,
    }
}

// Whether bytes are refused, or are those of the replica that is read of them.
fn are_its_own<R: Threads + Sync>(rt: &R, alloc: Global, bytes: &[u8]) -> Result<bool, Memory> {
    match restored(rt, alloc, MEMBERS.keys_of(alloc, 2)?, bytes) {
        Ok(node) => Ok(node.save()?.as_slice() == bytes),
        Err(_) => Ok(true),
    }
}

#[test]
fn those_with_a_right_digest_are_refused_or_spell_one(rt: HostRuntime) -> Result<(), Fail> {
    let alloc = rt.alloc();
    let (text, other) = (text(&rt, alloc, 400)?, text(&rt, alloc, 300)?);
    let mut changes = Changes { state: 2 };
    for _ in 0..said_or(&rt, "BFS_TEXTS", TEXTS) {
        let (_, mut changed) = changes.changed(alloc, body(&text), body(&other))?;
        seal(&mut changed)?;
        holds!(rt; are_its_own(&rt, alloc, &changed)?);
    }
    Ok(())
}
