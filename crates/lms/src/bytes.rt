// Numbers and hashes among bytes.
ghost use Rattle.std.specs.Prelude.{◌≡◌, ◌+◌, ◌*◌, ◌≤◌, ◌++◌, length, take, drop};
ghost use Rattle.lms.specs.Bytes.{hash_at, word_at};

// the bytes from a place on
pub(crate) fn array_at<const N: usize>(bytes: &[u8], place: usize) -> [u8; N]
    requires { place + N ≤ length bytes.now }
    ensures { result ≡ take N (drop place bytes.now) }
{
    let mut out = [0; N];
    out.copy_from_slice(&bytes[place..place + N]);
    out
}

pub(crate) fn word_at(bytes: &[u8], place: usize) -> u32
    requires { place + 4 ≤ length bytes.now }
    ensures { result ≡ word_at place bytes.now }
{
    u32::from_be_bytes(array_at(bytes, place))
}

// the hash of that number, where hashes stand one behind another
pub(crate) fn hash_at(hashes: &[u8], number: usize) -> &[u8]
    requires { 32 * number + 32 ≤ length hashes.now }
    ensures value { result.now ≡ hash_at number hashes.now }
    ensures length { length result.now ≡ 32 }
{
    let place = 32 * number;
    &hashes[place..place + 32]
}

// puts the part at a place of the bytes
pub(crate) fn put_at(bytes: &mut [u8], place: usize, part: &[u8])
    requires { place + length part.now ≤ length bytes.old }
    ensures front { take (place + length part.now) bytes.new ≡ take place bytes.old ++ part.now }
    ensures behind { drop (place + length part.now) bytes.new ≡ drop (place + length part.now) bytes.old }
{
    bytes[place..place + part.len()].copy_from_slice(part);
}
