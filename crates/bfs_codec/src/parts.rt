// What messages are read of: their parts, and lists of them.
ghost use Rattle.std.specs.Prelude.{◌≡◌, ◌≤◌, ℕ, List};
ghost use Rattle.bfs_model.specs.Bytes.Formats.{Reading, items_from};
ghost use Rattle.bfs_model.specs.Server.Limits.{most_replicas};
ghost use Rattle.bfs_codec.specs.Codes.{Passes, Reads};
ghost use Rattle.bfs_codec.specs.Parts.{auth_from, behind_from, digest_from, hashes_from, signature_from, signed_as_from};

use crate::error::{DecodeError, Malformed};
use crate::reader::MessageReader;
use bfs_auth::{Authenticator, KeyedHashes, MOST_SIGNATURE_BYTES};
use bfs_messages::{Kind, SIGNATURE_MARK, Signed};
use bfs_types::MOST_REPLICAS;

/// A part of a message, as it is read.
pub(crate) trait Read: Drop + Sized {
    /// What the bytes begin with.
    ghost from: { List ℕ → Reading Self };

    /// Reads it.
    fn read(reader: &mut MessageReader<'_>) -> Result<Self, DecodeError>
        ensures { Reads (λ part. part) result (from reader.old) reader.new };

    /// Passes over it. No memory is taken.
    fn skip(reader: &mut MessageReader<'_>) -> Result<(), Malformed>
        ensures { Passes result (from reader.old) reader.new };
}

impl Read for [u8; 32] {
    ghost from = { digest_from };

    fn read(reader: &mut MessageReader<'_>) -> Result<[u8; 32], DecodeError> {
        Ok(reader.digest()?)
    }

    fn skip(reader: &mut MessageReader<'_>) -> Result<(), Malformed> {
        reader.digest()?;
        Ok(())
    }
}

impl Read for Authenticator {
    ghost from = { auth_from };

    #[tactic(auto, unfolding(crate::specs::Parts::auth_from))]
    fn read(reader: &mut MessageReader<'_>) -> Result<Authenticator, DecodeError> {
        match reader.u32()? {
            SIGNATURE_MARK => read_signature(reader),
            count => read_hashes(count, reader),
        }
    }

    #[tactic(auto, unfolding(crate::specs::Parts::auth_from))]
    fn skip(reader: &mut MessageReader<'_>) -> Result<(), Malformed> {
        match reader.u32()? {
            SIGNATURE_MARK => skip_signature(reader),
            count => skip_hashes(count, reader),
        }
    }
}

#[tactic(auto, unfolding(crate::specs::Parts::signature_from))]
fn read_signature(reader: &mut MessageReader<'_>) -> Result<Authenticator, DecodeError>
    ensures { Reads (λ auth. auth) result (signature_from reader.old) reader.new }
{
    let bytes = reader.bytes(MOST_SIGNATURE_BYTES as u32)?;
    Ok(Authenticator::of_signature(reader.alloc(), bytes)?)
}

#[tactic(auto, unfolding(crate::specs::Parts::signature_from))]
fn skip_signature(reader: &mut MessageReader<'_>) -> Result<(), Malformed>
    ensures { Passes result (signature_from reader.old) reader.new }
{
    reader.bytes(MOST_SIGNATURE_BYTES as u32)?;
    Ok(())
}

#[tactic(auto, unfolding(crate::specs::Parts::hashes_from))]
fn read_hashes(count: u32, reader: &mut MessageReader<'_>) -> Result<Authenticator, DecodeError>
    ensures { Reads (λ auth. auth) result (hashes_from count reader.old) reader.new }
{
    if count > MOST_REPLICAS as u32 {
        return Err(DecodeError::Malformed);
    }
    Ok(Authenticator::Hashes(read_entries(count, reader)?))
}

#[tactic(auto, unfolding(crate::specs::Parts::hashes_from))]
fn skip_hashes(count: u32, reader: &mut MessageReader<'_>) -> Result<(), Malformed>
    ensures { Passes result (hashes_from count reader.old) reader.new }
{
    if count > MOST_REPLICAS as u32 {
        return Err(Malformed);
    }
    reader.skip_parts::<[u8; 32]>(count)
}

fn read_entries(count: u32, reader: &mut MessageReader<'_>) -> Result<KeyedHashes, DecodeError>
    requires { count ≤ most_replicas }
    ensures { Reads (λ hashes. hashes) result (items_from digest_from count reader.old) reader.new }
{
    let mut hashes = KeyedHashes::new(reader.alloc());
    for _entry in 0..count {
        hashes.push(reader.digest()?)?;
    }
    Ok(hashes)
}

impl<T: Kind + Read> Read for Signed<T> {
    ghost from = { signed_as_from T.TAG T.from };

    fn read(reader: &mut MessageReader<'_>) -> Result<Signed<T>, DecodeError> {
        reader.tag(T::TAG)?;
        read_behind(reader)
    }

    fn skip(reader: &mut MessageReader<'_>) -> Result<(), Malformed> {
        reader.tag(T::TAG)?;
        skip_behind::<T>(reader)
    }
}

/// Reads what stands behind a message's tag, with its authenticator.
pub(crate) fn read_behind<T: Read>(reader: &mut MessageReader<'_>) -> Result<Signed<T>, DecodeError>
    ensures { Reads (λ signed. signed) result (behind_from T.from reader.old) reader.new }
{
    let message = T::read(reader)?;
    let auth = Authenticator::read(reader)?;
    Ok(Signed { message, auth })
}

/// Passes over what stands behind a message's tag, with its authenticator.
pub(crate) fn skip_behind<T: Read>(reader: &mut MessageReader<'_>) -> Result<(), Malformed>
    ensures { Passes result (behind_from T.from reader.old) reader.new }
{
    T::skip(reader)?;
    Authenticator::skip(reader)
}
