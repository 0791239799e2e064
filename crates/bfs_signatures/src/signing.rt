ghost use Rattle.std.specs.Prelude.{◌≡◌, ◌↔◌, ◌^◌, ◌≤◌, length, map, IfOk, Err};
ghost use Rattle.lms.specs.Signers.{index_count};
ghost use Rattle.lms.specs.declared.error.SignError.TheVariants as error;
ghost use Rattle.bfs_signatures.specs.Signature.{most_height};
ghost use Rattle.bfs_signatures.specs.Signing.{signatures_of_leaves, signatures_under};

use crate::tree::Tree;
use lms::{SignError, Signer};
use std::alloc::{AllocError, Global};

/// The signatures of the texts with these leaves, in their order, all by one index. An index may sign one such list only: who has signatures of two by one index can
/// make more. `NoIndex` where the key has no such index, `Memory` where memory runs out. There may be `MOST_TEXTS` at most.
pub fn sign_all(
    alloc: Global,
    signer: &mut Signer,
    index: u64,
    leaves: &[[u8; 32]],
) -> Result<Vec<Vec<u8>>, SignError>
    requires { length leaves.now ≤ 2 ^ most_height }
    ensures ok { IfOk result (λ signatures. map (λ bytes. bytes.items) signatures.items ≡ signatures_of_leaves signer.old index leaves.now) }
    ensures no_index { (result ≡ Err error.NoIndex) ↔ (index_count signer.old ≤ index) }
    ensures same { signer.new ≡ signer.old }
{
    if !signer.has_index(index) {
        return Err(SignError::NoIndex);
    }
    let tree = Tree::over(alloc, leaves)?;
    let root_signature = signer.sign(alloc, index, tree.root())?;
    Ok(signatures_under(alloc, &tree, &root_signature)?)
}

// the signatures of all leaves of a tree by one of its root
fn signatures_under(
    alloc: Global,
    tree: &Tree,
    root_signature: &[u8],
) -> Result<Vec<Vec<u8>>, AllocError>
    ensures { IfOk result (λ signatures. map (λ bytes. bytes.items) signatures.items ≡ signatures_under root_signature.now tree.now) }
{
    let mut signatures = Vec::with_capacity(alloc, tree.leaf_count())?;
    for leaf in 0..tree.leaf_count() {
        let signature = tree.signature(alloc, leaf, root_signature)?;
        signatures.push(signature)?;
    }
    Ok(signatures)
}
