//! The parts of a file system, taken out and put back.
use crate::batches::{ROOT_REPLY, one_request};
use bfs_serial::{ExecError, FileSystem, answer_next, execute_serial};
use bfs_testing::words::{ROOT_REQUEST, spells};
use bfs_testing::{holds, same};
use bfs_types::Time;
use std::alloc::Global;
use std::process::Abort;
use std::test::Fail;

// a file system on which one request was executed
fn used(alloc: Global) -> Result<FileSystem, Fail> {
    let mut files = FileSystem::new(alloc)?;
    execute_serial(alloc, &mut files, &one_request(alloc)?)?;
    Ok(files)
}

fn is_as_used(rt: &impl Abort, files: &FileSystem) {
    holds!(rt; files.is_live());
    same!(rt; files.next_ordinal(), Some(4));
    same!(rt; files.last_time(), Time::new(1, 0));
}

#[test]
fn holds_the_parts_that_are_put_back(rt: HostRuntime) -> Result<(), Fail> {
    let alloc = rt.alloc();
    let mut files = used(alloc)?;
    let (tree, next_ordinal, last_time) = files.take_parts().ok_or("parts")?;
    holds!(rt; !files.is_live());
    same!(rt; next_ordinal.number(), 4);
    files.put_parts(tree, next_ordinal, last_time);
    is_as_used(&rt, &files);
    execute_serial(alloc, &mut files, &one_request(alloc)?)?;
    same!(rt; files.next_ordinal(), Some(5));
    Ok(())
}

#[test]
fn is_made_of_the_parts_of_another(rt: HostRuntime) -> Result<(), Fail> {
    let mut files = used(rt.alloc())?;
    let (tree, next_ordinal, last_time) = files.take_parts().ok_or("parts")?;
    is_as_used(&rt, &FileSystem::from_parts(tree, next_ordinal, last_time));
    Ok(())
}

#[test]
fn executes_nothing_without_its_parts(rt: HostRuntime) -> Result<(), Fail> {
    let alloc = rt.alloc();
    let mut files = used(alloc)?;
    holds!(rt; files.take_parts().is_some());
    holds!(rt; files.take_parts().is_none());
    match execute_serial(alloc, &mut files, &one_request(alloc)?) {
        Err(error) => same!(rt; (error, error.code()), (ExecError::Failed, 41)),
        Ok(_) => return Err(Fail::new("a file system that has failed")),
    }
    holds!(rt; !files.is_live());
    Ok(())
}

#[test]
fn answers_a_request_on_its_parts(rt: HostRuntime) -> Result<(), Fail> {
    let alloc = rt.alloc();
    let mut files = used(alloc)?;
    let (mut tree, next_ordinal, last_time) = files.take_parts().ok_or("parts")?;
    let request = hex::decode(alloc, ROOT_REQUEST)?;
    let reply = answer_next(
        alloc,
        &mut tree,
        next_ordinal,
        last_time,
        request.as_slice(),
    )?;
    spells(alloc, reply.as_slice(), ROOT_REPLY)
}
