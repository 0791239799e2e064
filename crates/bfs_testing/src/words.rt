//! Requests and replies as the words that they are spelled in.
ghost use Rattle.std.specs.Prelude.{◌≡◌, ◌+◌, ◌%◌, ◌∷◌, [], ◌++◌, IfOk, OnOk};
ghost use Rattle.std.specs.List.{flat_map};
ghost use Rattle.bfs_model.specs.Bytes.Items.{words};
ghost use Rattle.hex.specs.Hex.{encode_lower};
ghost use Rattle.bfs_testing.specs.Letters.{number_of};

use crate::asserts::compared;
use bfs_types::Memory;
use bfs_xdr::put_words;
use std::alloc::Global;
use std::test::Fail;

/// The call of GETATTR for the root's attributes, with xid 1 and no credential, in hexadecimal.
pub const ROOT_REQUEST: &str =
    "000000010000000000000002000186a30000000200000001000000000000000000000000000000004246533200000001000000020000000000000000000000000000000000000000";

/// The words of settings that set nothing.
pub const UNSET: &[u32] = &[
    0xffffffff, 0xffffffff, 0xffffffff, 0xffffffff, 0xffffffff, 0xffffffff, 0xffffffff, 0xffffffff,
];

/// The words of settings that set the size alone, to a byte.
pub const SIZE_OF_ONE: &[u32] = &[
    0xffffffff, 0xffffffff, 0xffffffff, 1, 0xffffffff, 0xffffffff, 0xffffffff, 0xffffffff,
];

/// The words of the root's file handle, and of those of the first files that are made.
pub const ROOT: &[u32] = &[0x42465332, 1, 2, 0, 0, 0, 0, 0];

pub const THIRD: &[u32] = &[0x42465332, 1, 3, 0, 0, 0, 0, 0];

pub const FOURTH: &[u32] = &[0x42465332, 1, 4, 0, 0, 0, 0, 0];

pub const FIFTH: &[u32] = &[0x42465332, 1, 5, 0, 0, 0, 0, 0];

pub const SIXTH: &[u32] = &[0x42465332, 1, 6, 0, 0, 0, 0, 0];

pub const SEVENTH: &[u32] = &[0x42465332, 1, 7, 0, 0, 0, 0, 0];

pub const EIGHTH: &[u32] = &[0x42465332, 1, 8, 0, 0, 0, 0, 0];

pub const NINTH: &[u32] = &[0x42465332, 1, 9, 0, 0, 0, 0, 0];

/// The words of names of a letter, and of those that aren't for files.
pub const A: &[u32] = &[1, 0x61000000];

pub const B: &[u32] = &[1, 0x62000000];

pub const C: &[u32] = &[1, 0x63000000];

pub const D: &[u32] = &[1, 0x64000000];

pub const E: &[u32] = &[1, 0x65000000];

pub const F: &[u32] = &[1, 0x66000000];

pub const G: &[u32] = &[1, 0x67000000];

pub const H: &[u32] = &[1, 0x68000000];

pub const L: &[u32] = &[1, 0x6c000000];

pub const DOT: &[u32] = &[1, 0x2e000000];

pub const DOT_DOT: &[u32] = &[2, 0x2e2e0000];

pub const NO_NAME: &[u32] = &[0];

/// The words of the attributes of what was made with no settings by a caller without a credential. The seconds of its three
/// times are those of the last access, of the last change of what it holds, and of the last change of the inode.
#[macro_export]
macro_rules! attributes {
    (file $id:literal, links $links:literal, size $size:expr, blocks $blocks:expr, times $atime:literal $mtime:literal $ctime:literal) => {
        &[
            1, 0x81a4, $links, 65534, 65534, $size, 4096, 0, $blocks, 1, $id, $atime, 0, $mtime, 0,
            $ctime, 0,
        ]
    };
    (directory $id:literal, links $links:literal, size $size:literal, times $atime:literal $mtime:literal $ctime:literal) => {
        &[
            2, 0x41ed, $links, 65534, 65534, $size, 4096, 0, 1, 1, $id, $atime, 0, $mtime, 0,
            $ctime, 0,
        ]
    };
}

/// Appends words that stand in parts.
pub fn put_parts(bytes: &mut Vec<u8>, parts: &[&[u32]]) -> Result<(), Memory>
    ensures { OnOk result (bytes.new.items ≡ bytes.old.items ++ flat_map (λ part. words part.now) parts.now) }
{
    for part in parts {
        put_words(bytes, part)?;
    }
    Ok(())
}

/// The bytes of words that stand in parts.
pub fn spelled(alloc: Global, parts: &[&[u32]]) -> Result<Vec<u8>, Memory>
    ensures { IfOk result (λ bytes. bytes.items ≡ flat_map (λ part. words part.now) parts.now) }
{
    let mut bytes = Vec::new(alloc);
    put_parts(&mut bytes, parts)?;
    Ok(bytes)
}

/// The head of a call of RPC version 2 with no credential and no verifier.
pub fn call(alloc: Global, xid: u32, procedure: u32) -> Result<Vec<u8>, Memory>
    ensures { IfOk result (λ bytes. bytes.items ≡ words (xid ∷ 0 ∷ 2 ∷ 100003 ∷ 2 ∷ procedure ∷ 0 ∷ 0 ∷ 0 ∷ 0 ∷ [])) }
{
    let mut bytes = Vec::new(alloc);
    put_words(&mut bytes, &[xid, 0, 2, 100003, 2, procedure, 0, 0, 0, 0])?;
    Ok(bytes)
}

/// A call by a caller without a credential, with the words of its arguments in parts. No contract says which bytes it has: a test that is
/// told them proves much longer.
pub fn request(
    alloc: Global,
    xid: u32,
    procedure: u32,
    arguments: &[&[u32]],
) -> Result<Vec<u8>, Memory> {
    let mut bytes = call(alloc, xid, procedure)?;
    put_parts(&mut bytes, arguments)?;
    Ok(bytes)
}

/// The head of a call of RPC version 2 by a user and its group, who has 16 further groups (RFC 5531 appendix A), with no verifier.
#[tactic(auto, using(std::proofs::lemmas::List::append_assoc))]
pub fn call_by(
    alloc: Global,
    xid: u32,
    procedure: u32,
    user: (u32, u32),
    gids: &[u32; 16],
) -> Result<Vec<u8>, Memory>
    ensures { IfOk result (λ bytes. bytes.items ≡ words (xid ∷ 0 ∷ 2 ∷ 100003 ∷ 2 ∷ procedure ∷ 1 ∷ 84 ∷ 0 ∷ 0 ∷ user.0 ∷ user.1 ∷ 16 ∷ []) ++ words gids.now ++ words (0 ∷ 0 ∷ [])) }
{
    let (uid, gid) = user;
    let mut bytes = Vec::new(alloc);
    put_words(
        &mut bytes,
        &[xid, 0, 2, 100003, 2, procedure, 1, 84, 0, 0, uid, gid, 16],
    )?;
    put_words(&mut bytes, gids)?;
    put_words(&mut bytes, &[0, 0])?;
    Ok(bytes)
}

/// Compares bytes.
pub fn same_bytes(alloc: Global, given: &[u8], wanted: &[u8]) -> Result<(), Fail>
    ensures { OnOk result (given.now ≡ wanted.now) }
{
    spells(alloc, given, hex::encode(alloc, wanted)?.as_str())
}

/// Compares bytes with a text in hexadecimal.
pub fn spells(alloc: Global, given: &[u8], wanted: &str) -> Result<(), Fail>
    ensures { OnOk result (encode_lower given.now ≡ wanted.now) }
{
    Ok(compared(hex::encode(alloc, given)?.as_str(), wanted)?)
}

/// Four letters by a number's digits: `aaaa`, `aaab` and so on, `pppp` for 65,535.
pub fn letters(number: u32) -> [u8; 4]
    ensures { number_of result ≡ number % 65536 }
{
    [
        letter(number / 4096),
        letter(number / 256),
        letter(number / 16),
        letter(number),
    ]
}

fn letter(digit: u32) -> u8
    ensures { result ≡ 97 + digit % 16 }
{
    b'a' + (digit % 16) as u8
}
