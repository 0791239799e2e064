//! Answers, byte for byte.
use bfs_frames::{Frame, Kind, Parcel, To, write_answer};
use bfs_testing::holds;
use std::alloc::{AllocError, Global};
use std::test::Fail;

fn parcel(alloc: Global, to: To, kind: Kind, payload: &[u8]) -> Result<Parcel, AllocError> {
    let payload = payload.to_vec(alloc)?;
    Ok(Parcel {
        to,
        frame: Frame { kind, payload },
    })
}

const ANSWER: &[u8] = &[
    0, 0, 0, 5, // five parcels
    0, 0, 0, 0, 0, 0, 0, 0, 0, 2, 0, 0, 0, 1, 0xff, // to all replicas
    1, 0, 0, 0, 0, 0, 0, 0, 3, 6, 0, 0, 0, 0, // to replica 3
    2, 0, 0, 0, 0, 0, 0, 3, 0xe8, 5, 0, 0, 0, 2, 1, 2, // to client 1,000
    3, 0, 0, 0, 0, 0, 0, 0, 0, 13, 0, 0, 0, 2, 111, 107, // to the operator
    4, 1, 2, 3, 4, 5, 6, 7, 8, 12, 0, 0, 0, 1, 9, // to the caller of a ticket
];

#[test]
fn an_answer_is_written_byte_for_byte(rt: HostRuntime) -> Result<(), Fail> {
    let alloc = rt.alloc();
    let mut parcels = Vec::new(alloc);
    parcels.push(parcel(alloc, To::Replicas, Kind::Order, &[0xff])?)?;
    parcels.push(parcel(alloc, To::Replica(3), Kind::Status, &[])?)?;
    parcels.push(parcel(alloc, To::Client(1_000), Kind::Reply, &[1, 2])?)?;
    parcels.push(parcel(alloc, To::Operator, Kind::Log, b"ok")?)?;
    parcels.push(parcel(alloc, To::Caller(0x0102_0304_0506_0708), Kind::Answer, &[9])?)?;
    let mut answer = Vec::new(alloc);
    write_answer(&mut answer, parcels.as_slice())?;
    holds!(rt; answer.as_slice() == ANSWER);
    Ok(())
}

#[test]
fn an_empty_answer_is_its_count(rt: HostRuntime) -> Result<(), Fail> {
    let mut answer = Vec::new(rt.alloc());
    write_answer(&mut answer, &[])?;
    holds!(rt; answer.as_slice() == [0, 0, 0, 0].as_slice());
    Ok(())
}
