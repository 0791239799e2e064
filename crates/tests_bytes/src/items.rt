//! Items of XDR, read and written (RFC 4506).
use bfs_testing::{holds, same};
use bfs_xdr::{Reader, XdrError, put_bool, put_fixed, put_opaque, put_u32, put_u64, put_words};
use std::test::Fail;

#[test]
fn reads_nothing_past_the_end(rt: HostRuntime) {
    let mut three = Reader::new(&[0, 0, 0]);
    holds!(rt; matches!(three.u32(), Err(XdrError::Short)));
    holds!(rt; matches!(three.u64(), Err(XdrError::Short)));
    same!(rt; three.rest().len(), 3);
}

#[test]
fn reads_one_item_after_another(rt: HostRuntime) {
    let mut reader = Reader::new(&[0, 0, 0, 0, 0, 0, 0, 5, 0x61, 9, 9, 9, 0, 0, 0, 1]);
    holds!(rt; matches!(reader.u64(), Ok(5)));
    holds!(rt; matches!(reader.fixed(1), Ok([0x61])));
    holds!(rt; matches!(reader.boolean(), Ok(true)));
}

#[test]
fn stays_before_what_is_refused(rt: HostRuntime) {
    let mut two = Reader::new(&[0, 0, 0, 2]);
    holds!(rt; matches!(two.boolean(), Err(XdrError::BadBool)));
    holds!(rt; matches!(two.u32(), Ok(2)));
    let mut pair = Reader::new(&[0, 0, 0, 2, 0x61, 0x62, 0, 0]);
    holds!(rt; matches!(pair.opaque(1), Err(XdrError::TooLong)));
    holds!(rt; matches!(pair.opaque(2), Ok([0x61, 0x62])));
}

// an `a` with another padding than zeros
const PADDED: &[u8] = &[0, 0, 0, 1, 0x61, 0, 0, 1];

#[test]
fn refuses_other_padding_where_it_is_strict(rt: HostRuntime) {
    holds!(rt; matches!(Reader::new(PADDED).opaque(1), Ok([0x61])));
    holds!(rt; matches!(Reader::strict(PADDED).opaque(1), Err(XdrError::BadPadding)));
}

#[test]
fn numbers_errors(rt: HostRuntime) {
    for (error, code) in [
        (XdrError::Short, 1),
        (XdrError::TooLong, 2),
        (XdrError::BadBool, 3),
        (XdrError::BadPadding, 4),
    ] {
        same!(rt; error.code(), code);
    }
}

#[test]
fn writes_items(rt: HostRuntime) -> Result<(), Fail> {
    let mut out = Vec::new(rt.alloc());
    put_u32(&mut out, 1)?;
    put_u64(&mut out, 2)?;
    put_bool(&mut out, true)?;
    put_fixed(&mut out, &[0x61])?;
    put_opaque(&mut out, b"abcde")?;
    put_words(&mut out, &[3, 4])?;
    let text = hex::encode(rt.alloc(), out.as_slice())?;
    same!(rt;
        text.as_str(),
        "00000001000000000000000200000001610000000000000561626364650000000000000300000004"
    );
    Ok(())
}
