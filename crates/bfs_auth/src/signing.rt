ghost use Rattle.std.specs.Prelude.{◌≡◌, ◌<◌, [], ◌∷◌, length, Some, IfOk};
ghost use Rattle.bfs_auth.specs.Authenticators.{hashes_of, signature, signature_for_client, signature_or_none};

use crate::authenticators::{Authenticator, KeyedHashes, SignatureBytes};
use crate::pairwise::Keys;
use crate::texts::Text;
use bfs_types::Memory;
use std::alloc::Global;

/// The authenticator of a text for all replicas: an entry for each, the sender itself among them, or the signature of a replica that has a key, where the text is of
/// a place; no entry where that key is spent there. `Memory` if memory runs out.
pub fn sign(alloc: Global, keys: &Keys, text: &[u8]) -> Result<Authenticator, Memory>
    ensures { IfOk result (λ auth. auth ≡ signature keys.now text.now) }
{
    sign_text(alloc, keys, &text)
}

/// The authenticator that `sign` gives of a text that is fed to it in pieces.
#[tactic(auto, unfolding(crate::specs::Authenticators::signature))]
pub fn sign_text<T: Text>(alloc: Global, keys: &Keys, text: &T) -> Result<Authenticator, Memory>
    ensures { IfOk result (λ auth. auth ≡ signature keys.now (T.text text.now)) }
{
    let Some(signer) = keys.signer() else {
        return hash_text(alloc, keys, text);
    };
    match text.place() {
        Some(place) => Ok(signed_or_none(alloc, signer.sign(alloc, place, text)?)),
        None => hash_text(alloc, keys, text),
    }
}

// no entries where there is no signature
fn signed_or_none(alloc: Global, signed: Option<SignatureBytes>) -> Authenticator
    ensures { result ≡ signature_or_none signed }
{
    match signed {
        Some(bytes) => Authenticator::Signature(bytes),
        None => Authenticator::new(alloc),
    }
}

// an entry for each replica
fn hash_text<T: Text>(alloc: Global, keys: &Keys, text: &T) -> Result<Authenticator, Memory>
    ensures { IfOk result (λ auth. auth ≡ hashes_of keys.now (T.text text.now)) }
{
    let mut hashes = KeyedHashes::new(alloc);
    for shared in keys.shared_with_each_replica() {
        hashes.push(shared.sending.hash(text))?;
    }
    Ok(Authenticator::Hashes(hashes))
}

/// The authenticator of a replica's text for one client: a single entry. `Memory` if memory runs out.
pub fn sign_for_client(
    alloc: Global,
    keys: &Keys,
    client: u32,
    text: &[u8],
) -> Result<Authenticator, Memory>
    requires { client < length keys.now.clients }
    ensures { IfOk result (λ auth. signature_for_client keys.now client text.now ≡ Some auth) }
{
    sign_text_for_client(alloc, keys, client, &text)
}

/// The authenticator that `sign_for_client` gives of a text that is fed to it in pieces.
pub fn sign_text_for_client<T: Text>(
    alloc: Global,
    keys: &Keys,
    client: u32,
    text: &T,
) -> Result<Authenticator, Memory>
    requires { client < length keys.now.clients }
    ensures { IfOk result (λ auth. signature_for_client keys.now client (T.text text.now) ≡ Some auth) }
{
    let mut hashes = KeyedHashes::new(alloc);
    hashes.push(keys.shared_with_client(client).sending.hash(text))?;
    Ok(Authenticator::Hashes(hashes))
}
