//! Batches that stand in a message more than once are one value.
use crate::spelled::NEW_VIEW;
use bfs_codec::decode;
use bfs_messages::Message;
use bfs_testing::{holds, same};
use bfs_types::Memory;
use std::sync::Arc;
use std::test::Fail;

#[test]
fn a_batch_that_stands_twice_in_a_message_is_read_once(rt: HostRuntime) -> Result<(), Fail> {
    let alloc = rt.alloc();
    let bytes = hex::decode(alloc, NEW_VIEW)?;
    let Ok(signed) = decode(alloc, bytes.as_slice()) else {
        return Err(Memory.into());
    };
    let Message::NewView(new) = &signed.message else {
        return Err(Memory.into());
    };
    let Some(proposal) = new.proposals().first() else {
        return Err(Memory.into());
    };
    same!(rt; Arc::strong_count(proposal.message.batch()), 2);
    holds!(rt; new.changes().len() == 1);
    Ok(())
}
