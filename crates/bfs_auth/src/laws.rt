ghost use Rattle.bfs_auth.specs.Laws.{DerivedAreOfReplicas, IndexIsOfOnePlace, IndexIsOfTheKey, OnlyTheSendersHashPasses, PassesAtAllOrAtNone, PassesAtClients, PassesAtReplicas, SignedAlone, SignedPasses, SignedWhereNotSpent};

/// A text passes exactly where sender and receiver share keys and the receiver's own entry is the keyed hash under the key from
/// the one to the other. The body is empty: what is said is its contract.
pub fn only_the_senders_hash_passes()
    ensures { OnlyTheSendersHashPasses }
{}

/// What a principal signs for the replicas passes at each of them, and what a replica signs for a client passes at that client.
pub fn what_is_signed_passes()
    ensures replicas { PassesAtReplicas }
    ensures client { PassesAtClients }
{}

/// Keys that are derived for one of 3f + 1 replicas are those of that replica among them.
#[tactic(auto, using(crate::proofs::Numbered::as_many))]
pub fn derived_keys_are_of_replicas()
    ensures { DerivedAreOfReplicas }
{}

/// What is claimed to be a sender's whose public key is known passes at all who know it, or at none of them, whatever bytes it has.
pub fn signed_passes_at_all_or_at_none()
    ensures { PassesAtAllOrAtNone }
{}

/// What a replica signs by its key passes at all who know its public key; and it signs all that is of a place at which the key is not spent.
pub fn what_a_key_signs_passes()
    ensures passes { SignedPasses }
    ensures signed { SignedWhereNotSpent }
{}

/// Its bytes are those of a tree over one text alone.
pub fn signed_alone_as_among_many()
    ensures { SignedAlone }
{}

/// An index of a key signs what is of one place alone, and is one of the key's.
pub fn an_index_is_of_one_place()
    ensures one { IndexIsOfOnePlace }
    ensures within { IndexIsOfTheKey }
{}
