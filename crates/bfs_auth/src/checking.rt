ghost use Rattle.std.specs.Prelude.{◌≡◌, IfOk, map};
ghost use Rattle.bfs_auth.specs.Authenticators.{entry_for, is_hash, passes};
ghost use Rattle.bfs_auth.specs.Keys.{shared_with};

use crate::authenticators::Authenticator;
use crate::checker::Checker;
use crate::gathering::least_checked;
use crate::pairwise::Keys;
use crate::principals::Principal;
use crate::texts::Text;
use bfs_types::Memory;
use rayon::prelude::*;
use std::alloc::{AllocError, Global};
use std::thread::Threads;

/// A text, and an authenticator that is claimed to be its sender's.
#[derive(Debug, Drop)]
pub struct Claimed {
    pub sender: Principal,
    pub text: Vec<u8>,
    pub auth: Authenticator,
}

/// Whether the authenticator is the sender's for the text, as the receiver sees it, whose keys these are. Where it knows a public key of the
/// sender, and of a replica the text is of a place: whether it is a signature of the text by that. Where it knows none: whether the receiver's own entry is the keyed hash of the
/// text under the key from the sender to the receiver; `false` where they share no key, and where there is no entry for the receiver.
/// It takes no memory but for what the keys keep, the upper levels of the signatures of each sender that passed last, and its time depends on the bytes that it compares.
pub fn check(keys: &Keys, sender: Principal, text: &[u8], auth: &Authenticator) -> bool
    ensures { result ≡ passes keys.now sender text.now auth.now }
{
    check_text(keys, sender, &text, auth)
}

/// What `check` answers of a text that is fed to it in pieces.
pub fn check_text<T: Text>(keys: &Keys, sender: Principal, text: &T, auth: &Authenticator) -> bool
    ensures { result ≡ passes keys.now sender (T.text text.now) auth.now }
{
    Checker::new().check_text(keys, sender, text, auth)
}

pub(crate) fn is_hashed<T: Text>(
    keys: &Keys,
    sender: Principal,
    text: &T,
    auth: &Authenticator,
) -> bool
    ensures { result ≡ is_hash (shared_with keys.now sender) (T.text text.now) (entry_for keys.now.me auth.now) }
{
    let Some(shared) = keys.shared_with(sender) else {
        return false;
    };
    let Some(entry) = auth.entry_for(keys.me()) else {
        return false;
    };
    shared.receiving.hash(text).as_slice() == entry.as_slice()
}

/// What `check` answers of each, in their order, from as many threads as there are processors, unless there is too little to hash for them.
/// `Memory` if memory runs out.
pub fn check_all(
    rt: &(impl Threads + Sync),
    alloc: Global,
    keys: &Keys,
    items: &[Claimed],
) -> Result<Vec<bool>, Memory>
    ensures { IfOk result (λ answers. answers.items ≡ map (λ item. passes keys.now item.sender item.text.items item.auth) items.now) }
{
    Ok(checked(rt, alloc, keys, items)?)
}

fn checked(
    rt: &(impl Threads + Sync),
    alloc: Global,
    keys: &Keys,
    items: &[Claimed],
) -> Result<Vec<bool>, AllocError>
    ensures { IfOk result (λ answers. answers.items ≡ map (λ item. passes keys.now item.sender item.text.items item.auth) items.now) }
{
    items
        .par_iter()
        .with_min_len(least_checked(items, |item| item.text.len()))
        .map_init(
            Checker::new,
            |checker: &mut Checker, item: &Claimed| -> bool
                ensures { result ≡ passes keys.entry.now item.now.sender item.now.text.items item.now.auth }
            { checker.check_text(keys, item.sender, &item.text.as_slice(), &item.auth) },
        )
        .collect(rt, alloc)
}
