//! In which forms a text can be sent by one that lies.
use crate::keys::{Known, MEMBERS, signer_of, unknown_signer};
use bfs_auth::{Authenticator, Keys, MOST_SIGNATURE_BYTES, Principal, Text, sign_text};
use bfs_messages::{Message, Signed};
use bfs_signatures::{leaf_hasher, sign_all};
use bfs_testing_liars::liars::spoiled;
use bfs_testing_liars::sets::Set;
use bfs_types::Memory;
use lms::Signer;
use sha2::Digest;
use std::alloc::Global;

/// The authenticator of a copy of a text.
#[derive(Clone, Copy, Debug, PartialEq, Eq)]
pub enum Form {
    /// Its sender's own, as one that doesn't lie makes it.
    Own,
    /// Its sender's own, with a changed byte, or a changed byte in each entry.
    Changed,
    /// A signature by a key that nobody knows.
    OfAnother,
    /// Keyed hashes that are right for that replica alone.
    HashesFor(usize),
}

/// What a replica or a client makes authenticators with.
#[derive(Drop)]
pub struct Voice {
    alloc: Global,
    holder: Principal,
    hashing: Keys,
    // none where it signs by keyed hashes alone
    signer: Option<Signer>,
    // none until it is asked for
    unknown: Option<Signer>,
    next: u64,
}

// the signature of a text by an index
fn signature(
    alloc: Global,
    signer: &mut Signer,
    index: u64,
    message: &Message,
) -> Result<Authenticator, Memory> {
    let mut hasher = leaf_hasher();
    message.hash(&mut hasher);
    let signed = match sign_all(alloc, signer, index, &[hasher.finalize()]) {
        Ok(signed) => signed,
        Err(_) => return Err(Memory),
    };
    match signed.first() {
        Some(bytes) => of_bytes(alloc, bytes),
        None => Err(Memory),
    }
}

fn of_bytes(alloc: Global, bytes: &[u8]) -> Result<Authenticator, Memory> {
    if bytes.len() > MOST_SIGNATURE_BYTES {
        return Err(Memory);
    }
    Authenticator::of_signature(alloc, bytes)
}

fn with_changed_byte(alloc: Global, signature: &[u8]) -> Result<Authenticator, Memory> {
    let mut bytes = Vec::from_slice(alloc, signature)?;
    let place = bytes.len() / 2;
    if let Some(byte) = bytes.get_mut(place) {
        *byte ^= 1;
    }
    of_bytes(alloc, &bytes)
}

// of a signature a byte, and of keyed hashes one of each entry
fn changed(alloc: Global, signed: Signed<Message>) -> Result<Signed<Message>, Memory> {
    let auth = match signed.auth.signature() {
        Some(bytes) => with_changed_byte(alloc, bytes)?,
        None => return spoiled(alloc, signed, Set::ALL),
    };
    Ok(Signed {
        message: signed.message,
        auth,
    })
}

impl Voice {
    /// That of a principal, which signs if its public key is known.
    pub fn new(alloc: Global, known: &Known, holder: Principal) -> Result<Voice, Memory> {
        let signer = if known.is_signed() {
            Some(signer_of(alloc, holder)?)
        } else {
            None
        };
        Ok(Voice {
            alloc,
            holder,
            hashing: MEMBERS.keys(alloc, holder)?,
            signer,
            unknown: None,
            next: 0,
        })
    }

    // whether what has a public key signs that: what a client says, and what is of a place
    fn is_to_sign(&self, message: &Message) -> bool {
        match self.holder {
            Principal::Client(_) => true,
            Principal::Replica(_) => message.place().is_some(),
        }
    }

    fn hashed(&self, message: Message) -> Result<Signed<Message>, Memory> {
        let auth = sign_text(self.alloc, &self.hashing, &message)?;
        Ok(Signed { message, auth })
    }

    // as it does where it doesn't lie, but that a replica takes any index
    fn own(&mut self, message: Message) -> Result<Signed<Message>, Memory> {
        if !self.is_to_sign(&message) {
            return self.hashed(message);
        }
        self.next = self.next.saturating_add(1);
        let Some(signer) = &mut self.signer else {
            return self.hashed(message);
        };
        let auth = signature(self.alloc, signer, self.next, &message)?;
        Ok(Signed { message, auth })
    }

    fn by_unknown(&mut self, message: Message) -> Result<Signed<Message>, Memory> {
        let mut unknown = match self.unknown.take() {
            Some(signer) => signer,
            None => unknown_signer(self.alloc)?,
        };
        let auth = signature(self.alloc, &mut unknown, self.next, &message)?;
        self.unknown = Some(unknown);
        Ok(Signed { message, auth })
    }

    /// The text in that form.
    pub fn say(&mut self, message: Message, form: Form) -> Result<Signed<Message>, Memory> {
        match form {
            Form::Own => self.own(message),
            Form::Changed => changed(self.alloc, self.own(message)?),
            Form::OfAnother => self.by_unknown(message),
            Form::HashesFor(one) => {
                spoiled(self.alloc, self.hashed(message)?, Set::of(one).others())
            }
        }
    }
}
