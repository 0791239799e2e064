//! CHECKPOINTs of several replicas, of which those that are right make a checkpoint stable.
use crate::replica::members;
use bfs_messages::{Checkpoint, Signed, sign_checkpoint};
use bfs_testing::asserts::compared;
use bfs_testing_nodes::snapshots::collect;
use bfs_types::{MOST_NUMBER, Memory};
use std::alloc::Global;
use std::test::Fail;

/// A CHECKPOINT among four replicas: the one that signs it, the one in whose name it is, its number, and each byte of its digest.
#[derive(Clone, Copy)]
struct Given(u32, u32, u64, u8);

impl Given {
    fn checkpoint(self, alloc: Global) -> Result<Signed<Checkpoint>, Memory> {
        let Given(signer, sender, number, byte) = self;
        if number > MOST_NUMBER {
            return Err(Memory);
        }
        let keys = members(1).keys_of(alloc, signer)?;
        sign_checkpoint(alloc, &keys, Checkpoint::new(sender, number, [byte; 32]))
    }
}

// whether the senders of what replica 3 collects for number 16 and that digest are these; none where it collects nothing
fn collects(alloc: Global, byte: u8, given: &[Given], wanted: &[u32]) -> Result<bool, Memory> {
    let node = members(1).replica(alloc, 3)?;
    let mut told = Vec::new(alloc);
    for one in given {
        told.push(one.checkpoint(alloc)?)?;
    }
    let Some(stable) = collect(&node, 16, &[byte; 32], &told)? else {
        return Ok(wanted.is_empty());
    };
    for (place, signed) in stable.checkpoints().iter().enumerate() {
        if wanted.get(place) != Some(&signed.message.sender()) {
            return Ok(false);
        }
    }
    Ok(stable.checkpoints().len() == wanted.len())
}

// of replica 0 and 2 there are right ones of digest 7; the others are forged, of another number or digest, of no replica, or are there already
static OF_TWO: [Given; 7] = [
    Given(2, 2, 16, 7),
    Given(2, 1, 16, 7),
    Given(1, 1, 32, 7),
    Given(1, 1, 16, 8),
    Given(0, 0, 16, 7),
    Given(2, 2, 16, 7),
    Given(1, 4, 16, 7),
];

#[test]
fn too_few_are_right(rt: HostRuntime) -> Result<(), Fail> {
    let alloc = rt.alloc();
    compared(collects(alloc, 7, &OF_TWO, &[])?, true)?;
    compared(collects(alloc, 8, &OF_TWO, &[])?, true)?;
    compared(collects(alloc, 7, &[], &[])?, true)?;
    Ok(())
}

static OF_THREE: [Given; 6] = [
    Given(2, 2, 16, 7),
    Given(2, 1, 16, 7),
    Given(1, 1, 16, 8),
    Given(0, 0, 16, 7),
    Given(2, 2, 16, 7),
    Given(1, 1, 16, 7),
];

#[test]
fn those_that_are_right_are_collected(rt: HostRuntime) -> Result<(), Fail> {
    compared(collects(rt.alloc(), 7, &OF_THREE, &[2, 0, 1])?, true)?;
    Ok(())
}
