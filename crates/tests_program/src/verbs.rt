//! The verbs of a request: the calls that they spell, and the lines that are refused.
//!
//! The bytes of the calls are those of another implementation: `rpcgen` made the encoders of the arguments from the declarations of
//! RFC 1094 section 2, and libtirpc's `xdr_callmsg` and `xdr_authunix_parms` wrote the header and the credential before them.
use crate::populations::{only_requests, parse_alone};
use bfs_testing::asserts::compared;
use bfs_trace::TraceError;
use std::alloc::Global;
use std::test::Fail;

// a line, and the digits of the call that it spells
static CALLS: [(&str, &str); 23] = [
    (
        "0 1 null",
        "000000010000000000000002000186a30000000200000000000000010000001c00000000000000067265706c61790000000003e800000064000000000000000000000000",
    ),
    (
        "15 4294967298 getattr #2",
        "000000020000000000000002000186a30000000200000001000000010000001c00000000000000067265706c61790000000003f7000000640000000000000000000000004246533200000001000000020000000000000000000000000000000000000000",
    ),
    (
        "0 3 setattr #3 644 1001 0 4294967294 now 7.250000",
        "000000030000000000000002000186a30000000200000002000000010000001c00000000000000067265706c61790000000003e8000000640000000000000000000000004246533200000001000000030000000000000000000000000000000000000000000001a4000003e900000000fffffffe00000000000f4240000000070003d090",
    ),
    (
        "0 3 setattr #3 - - - - - -",
        "000000030000000000000002000186a30000000200000002000000010000001c00000000000000067265706c61790000000003e8000000640000000000000000000000004246533200000001000000030000000000000000000000000000000000000000ffffffffffffffffffffffffffffffffffffffffffffffffffffffffffffffff",
    ),
    (
        "0 3 setattr #4294967295 37777777777 4294967295 00 0 4294967295.000000 0.999999",
        "000000030000000000000002000186a30000000200000002000000010000001c00000000000000067265706c61790000000003e8000000640000000000000000000000004246533200000001ffffffff0000000000000000000000000000000000000000ffffffffffffffff0000000000000000ffffffff0000000000000000000f423f",
    ),
    (
        "1 18446744073709551615 root",
        "ffffffff0000000000000002000186a30000000200000003000000010000001c00000000000000067265706c61790000000003e900000064000000000000000000000000",
    ),
    (
        "0 4 lookup #2 hello",
        "000000040000000000000002000186a30000000200000004000000010000001c00000000000000067265706c61790000000003e80000006400000000000000000000000042465332000000010000000200000000000000000000000000000000000000000000000568656c6c6f000000",
    ),
    (
        "0 4 lookup #2 %",
        "000000040000000000000002000186a30000000200000004000000010000001c00000000000000067265706c61790000000003e800000064000000000000000000000000424653320000000100000002000000000000000000000000000000000000000000000000",
    ),
    (
        "0 4 lookup #02 a%20b%25%fF~!",
        "000000040000000000000002000186a30000000200000004000000010000001c00000000000000067265706c61790000000003e80000006400000000000000000000000042465332000000010000000200000000000000000000000000000000000000000000000761206225ff7e2100",
    ),
    (
        "2 5 readlink #5",
        "000000050000000000000002000186a30000000200000005000000010000001c00000000000000067265706c61790000000003ea000000640000000000000000000000004246533200000001000000050000000000000000000000000000000000000000",
    ),
    (
        "0 6 read #3 7 4294967295",
        "000000060000000000000002000186a30000000200000006000000010000001c00000000000000067265706c61790000000003e800000064000000000000000000000000424653320000000100000003000000000000000000000000000000000000000000000007ffffffff00000000",
    ),
    (
        "0 7 writecache",
        "000000070000000000000002000186a30000000200000007000000010000001c00000000000000067265706c61790000000003e800000064000000000000000000000000",
    ),
    (
        "0 8 write #3 1048576 x00aBCdEF10",
        "000000080000000000000002000186a30000000200000008000000010000001c00000000000000067265706c61790000000003e80000006400000000000000000000000042465332000000010000000300000000000000000000000000000000000000000000000000100000000000000000000500abcdef10000000",
    ),
    (
        "0 8 write #3 0 x",
        "000000080000000000000002000186a30000000200000008000000010000001c00000000000000067265706c61790000000003e800000064000000000000000000000000424653320000000100000003000000000000000000000000000000000000000000000000000000000000000000000000",
    ),
    (
        "0 9 create #2 f 600 - - 0 - -",
        "000000090000000000000002000186a30000000200000009000000010000001c00000000000000067265706c61790000000003e8000000640000000000000000000000004246533200000001000000020000000000000000000000000000000000000000000000016600000000000180ffffffffffffffff00000000ffffffffffffffffffffffffffffffff",
    ),
    (
        "0 10 remove #2 f",
        "0000000a0000000000000002000186a3000000020000000a000000010000001c00000000000000067265706c61790000000003e80000006400000000000000000000000042465332000000010000000200000000000000000000000000000000000000000000000166000000",
    ),
    (
        "0 11 rename #2 f #4 gamma",
        "0000000b0000000000000002000186a3000000020000000b000000010000001c00000000000000067265706c61790000000003e8000000640000000000000000000000004246533200000001000000020000000000000000000000000000000000000000000000016600000042465332000000010000000400000000000000000000000000000000000000000000000567616d6d61000000",
    ),
    (
        "0 12 link #3 #2 g",
        "0000000c0000000000000002000186a3000000020000000c000000010000001c00000000000000067265706c61790000000003e800000064000000000000000000000000424653320000000100000003000000000000000000000000000000000000000042465332000000010000000200000000000000000000000000000000000000000000000167000000",
    ),
    (
        "0 13 symlink #2 s d/b%20c - - - - 1.000002 -",
        "0000000d0000000000000002000186a3000000020000000d000000010000001c00000000000000067265706c61790000000003e8000000640000000000000000000000004246533200000001000000020000000000000000000000000000000000000000000000017300000000000005642f622063000000ffffffffffffffffffffffffffffffff0000000100000002ffffffffffffffff",
    ),
    (
        "0 14 mkdir #2 dir 0755 - - - - now",
        "0000000e0000000000000002000186a3000000020000000e000000010000001c00000000000000067265706c61790000000003e80000006400000000000000000000000042465332000000010000000200000000000000000000000000000000000000000000000364697200000001edffffffffffffffffffffffffffffffffffffffff00000000000f4240",
    ),
    (
        "0 15 rmdir #2 dir",
        "0000000f0000000000000002000186a3000000020000000f000000010000001c00000000000000067265706c61790000000003e80000006400000000000000000000000042465332000000010000000200000000000000000000000000000000000000000000000364697200",
    ),
    (
        "0 16 readdir #2 4294967295 512",
        "000000100000000000000002000186a30000000200000010000000010000001c00000000000000067265706c61790000000003e8000000640000000000000000000000004246533200000001000000020000000000000000000000000000000000000000ffffffff00000200",
    ),
    (
        "0 17 statfs #2",
        "000000110000000000000002000186a30000000200000011000000010000001c00000000000000067265706c61790000000003e8000000640000000000000000000000004246533200000001000000020000000000000000000000000000000000000000",
    ),
];

static FAULTS: [&str; 100] = [
    "0 1",
    "0 1 ",
    "0 1 getattrs #2",
    "0 1 GETATTR #2",
    "0 1 null ",
    "0 1 null #2",
    "0 1 root #2",
    "0 1 writecache #2",
    "0 1 getattr",
    "0 1 getattr ",
    "0 1 getattr  #2",
    "0 1 getattr #2 ",
    "0 1 getattr #2 #2",
    "0 1 getattr 2",
    "0 1 getattr #",
    "0 1 getattr ##2",
    "0 1 getattr #+2",
    "0 1 getattr #-1",
    "0 1 getattr #2a",
    "0 1 getattr #0x2",
    "0 1 getattr #4294967296",
    "16 1 getattr #2",
    "0 18446744073709551616 getattr #2",
    "0 1 setattr #2 - - - - -",
    "0 1 setattr #2 - - - - - - -",
    "0 1 setattr #2 8 - - - - -",
    "0 1 setattr #2 0o7 - - - - -",
    "0 1 setattr #2 40000000000 - - - - -",
    "0 1 setattr #2 now - - - - -",
    "0 1 setattr #2 -- - - - - -",
    "0 1 setattr #2 - 4294967296 - - - -",
    "0 1 setattr #2 - - +1 - - -",
    "0 1 setattr #2 - - - 1a - -",
    "0 1 setattr #2 - - -  - -",
    "0 1 setattr #2 - - - - 1 -",
    "0 1 setattr #2 - - - - 1.00000 -",
    "0 1 setattr #2 - - - - 1.0000000 -",
    "0 1 setattr #2 - - - - .000000 -",
    "0 1 setattr #2 - - - - 4294967296.000000 -",
    "0 1 setattr #2 - - - - - Now",
    "0 1 setattr #2 - - - - - now.000000",
    "0 1 lookup #2",
    "0 1 lookup #2 ",
    "0 1 lookup a #2",
    "0 1 lookup #2 a b",
    "0 1 lookup #2 a%2",
    "0 1 lookup #2 a%",
    "0 1 lookup #2 %%",
    "0 1 lookup #2 %2g",
    "0 1 lookup #2 %g2",
    "0 1 lookup #2 %1%31",
    "0 1 lookup #2 a\tb",
    "0 1 lookup #2 a\r",
    "0 1 lookup #2 a\x7f",
    "0 1 lookup #2 caf\u{e9}",
    "0 1 readlink #2 a",
    "0 1 read #2 0",
    "0 1 read #2 0 1 0",
    "0 1 read #2 4294967296 1",
    "0 1 read #2 0 4294967296",
    "0 1 read #2 -1 1",
    "0 1 read 0 #2 1",
    "0 1 write #2 0",
    "0 1 write #2 0 ",
    "0 1 write #2 0 00",
    "0 1 write #2 0 X00",
    "0 1 write #2 0 x0",
    "0 1 write #2 0 x0g",
    "0 1 write #2 0 xx00",
    "0 1 write #2 0 x00 x00",
    "0 1 write #2 4294967296 x00",
    "0 1 create #2 a - - - - -",
    "0 1 create #2 a - - - - - - -",
    "0 1 create #2 - - - - - -",
    "0 1 remove #2",
    "0 1 remove #2 a b",
    "0 1 rename #2 a #2",
    "0 1 rename #2 a b",
    "0 1 rename #2 a #2 b c",
    "0 1 link #3 #2",
    "0 1 link #3 a",
    "0 1 link #3 a #2",
    "0 1 link #3 #2 a b",
    "0 1 symlink #2 a - - - - - -",
    "0 1 symlink #2 a b - - - - -",
    "0 1 symlink #2 a b - - - - - - -",
    "0 1 symlink #2 a %4 - - - - - -",
    "0 1 mkdir #2 - - - - - -",
    "0 1 mkdir #2 a - - - - - 1",
    "0 1 rmdir #2",
    "0 1 rmdir #2 a b",
    "0 1 readdir #2 0",
    "0 1 readdir #2 0 1 1",
    "0 1 readdir #2 #0 1",
    "0 1 statfs",
    "0 1 statfs #2 0",
    "0 1 silent",
    "0 1 timeout",
    "silent 1",
    "heard 1",
];

/// Whether a line spells the call of those digits.
fn spells(alloc: Global, line: &str, digits: &str) -> Result<bool, Fail> {
    let text = format!(in alloc; "batch 1.000000\n{line}\n0 1 raw {digits}\n")?;
    let trace = parse_alone(alloc, text.as_bytes())?;
    match only_requests(trace.events()) {
        [request, raw] => Ok(request.call() == raw.call()),
        _ => Ok(false),
    }
}

fn first_wrong(alloc: Global) -> Result<Option<&'static str>, Fail> {
    for (line, digits) in &CALLS {
        if !spells(alloc, *line, *digits)? {
            return Ok(Some(*line));
        }
    }
    Ok(None)
}

#[test]
fn spells_the_call_of_each_verb(rt: HostRuntime) -> Result<(), Fail> {
    Ok(compared(first_wrong(rt.alloc())?, None)?)
}

/// Whether the second line of a trace is the first at fault.
fn is_refused(alloc: Global, line: &str) -> Result<bool, Fail> {
    let text = format!(in alloc; "batch 1.000000\n{line}\n0 1 null\n")?;
    Ok(parse_alone(alloc, text.as_bytes()).err() == Some(TraceError::BadLine(2)))
}

fn first_taken(alloc: Global) -> Result<Option<&'static str>, Fail> {
    for line in &FAULTS {
        if !is_refused(alloc, *line)? {
            return Ok(Some(*line));
        }
    }
    Ok(None)
}

#[test]
fn refuses_words_that_spell_no_call(rt: HostRuntime) -> Result<(), Fail> {
    Ok(compared(first_taken(rt.alloc())?, None)?)
}

/// How many bytes the only call of that trace has, if it is one.
fn length_of_call(alloc: Global, text: &str) -> Option<usize> {
    let trace = parse_alone(alloc, text.as_bytes()).ok()?;
    match only_requests(trace.events()) {
        [request] => Some(request.call().len()),
        _ => None,
    }
}

// the words of a request, the last of which ends with a piece so many times, and how many bytes its call has
static LONG: [(&str, &str, usize, Option<usize>); 4] = [
    ("lookup #2 ", "%61", 16_280, Some(16_384)),
    ("lookup #2 ", "%61", 16_281, None),
    ("write #3 0 x", "61", 16_268, Some(16_384)),
    ("write #3 0 x", "61", 16_269, None),
];

fn first_wrong_length(alloc: Global) -> Result<Option<usize>, Fail> {
    for (place, (words, piece, count, wanted)) in LONG.iter().enumerate() {
        let pieces = piece.repeat(alloc, *count)?;
        let text = format!(in alloc; "batch 1.000000\n0 1 {words}{pieces}\n")?;
        if length_of_call(alloc, text.as_str()) != *wanted {
            return Ok(Some(place));
        }
    }
    Ok(None)
}

#[test]
fn takes_calls_of_at_most_16384_bytes(rt: HostRuntime) -> Result<(), Fail> {
    Ok(compared(first_wrong_length(rt.alloc())?, None)?)
}
