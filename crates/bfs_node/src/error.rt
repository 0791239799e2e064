ghost use Rattle.std.specs.Prelude.{◌≡◌};
ghost use Rattle.bfs_node.specs.Errors.{code_of, of_adopting, of_decoding, of_executing, of_order, of_view};
ghost use Rattle.bfs_node.specs.declared.error.NodeError.TheVariants as errors;

use bfs_checkpoints::AdoptError;
use bfs_codec::DecodeError;
use bfs_order::OrderError;
use bfs_serial::ExecError;
use bfs_types::Memory;
use bfs_view_change::ViewError;
use std::alloc::AllocError;
use thiserror::Error;

/// Why a replica refuses a message or a call. Nothing has changed then but what the call names: where memory runs out, a file system that is
/// executed on fails, of several requests the first ones stay, and batches stay executed.
#[derive(Clone, Copy, Debug, PartialEq, Eq, Error)]
pub enum NodeError {
    /// There are as many requests waiting as a batch can have.
    #[error("as many requests wait as a batch can have")]
    BatchFull,
    /// The text spells no replica of as many clients.
    #[error("the text spells no replica")]
    MalformedText,
    /// The file system that the text spells is not well formed.
    #[error("the file system is not well formed")]
    NotWellFormed,
    /// The file system's text is of another version.
    #[error("the text is of another version")]
    WrongVersion,
    /// The bytes spell no message.
    #[error("the bytes spell no message")]
    Malformed,
    /// The authenticator of the message, or of a request in its batch, is not the sender's, or there is no such sender.
    #[error("the authenticator is not the sender's")]
    BadAuthenticator,
    /// The message is of another view than the one entered, or a view change is under way.
    #[error("the view is another one")]
    WrongView,
    /// The number is not between the marks, or no multiple of 16 where it is that of a checkpoint.
    #[error("the number is outside the marks")]
    OutsideMarks,
    /// The sender has told another digest for the place, or sends a PREPARE as the primary.
    #[error("the message conflicts with another one")]
    Conflicting,
    /// A PRE-PREPARE or a proposal is not the primary's.
    #[error("the sender is not the primary")]
    NotPrimary,
    /// The message is there, or the checkpoint was told.
    #[error("the message is there already")]
    AlreadyHave,
    /// The VIEW-CHANGEs of a NEW-VIEW are of fewer than 2f + 1 replicas.
    #[error("too few replicas change the view")]
    TooFew,
    /// A VIEW-CHANGE is not valid, or asks for another view than the NEW-VIEW that it stands in.
    #[error("a view change is not valid")]
    BadCertificate,
    /// The PRE-PREPAREs of a NEW-VIEW are not what its VIEW-CHANGEs choose.
    #[error("the proposals are not what is chosen")]
    WrongChoice,
    /// The messages are no certificate of a checkpoint that is ahead.
    #[error("the checkpoint has no certificate")]
    NoCertificate,
    /// What the text spells has another digest than its certificate tells.
    #[error("the digest is another one")]
    DigestDiffers,
    /// The message is a REPLY, which is for clients.
    #[error("the message is not one for replicas")]
    WrongKind,
    /// Memory ran out.
    #[error("out of memory")]
    Memory,
    /// The file system has failed.
    #[error("the file system has failed")]
    Failed,
}

impl NodeError {
    /// The number of the refusal.
    pub fn code(self) -> u32
        ensures { result ≡ code_of self }
    {
        match self {
            NodeError::BatchFull => 13,
            NodeError::MalformedText => 20,
            NodeError::NotWellFormed => 21,
            NodeError::WrongVersion => 22,
            NodeError::Malformed => 23,
            NodeError::BadAuthenticator => 24,
            NodeError::WrongView => 25,
            NodeError::OutsideMarks => 26,
            NodeError::Conflicting => 27,
            NodeError::NotPrimary => 28,
            NodeError::AlreadyHave => 29,
            NodeError::TooFew => 30,
            NodeError::BadCertificate => 31,
            NodeError::WrongChoice => 32,
            NodeError::NoCertificate => 34,
            NodeError::DigestDiffers => 35,
            NodeError::WrongKind => 36,
            NodeError::Memory => 40,
            NodeError::Failed => 41,
        }
    }
}

impl From<OrderError> for NodeError {
    ghost from_gives = { λ error given. given ≡ of_order error };

    fn from(error: OrderError) -> NodeError {
        match error {
            OrderError::BadAuthenticator => NodeError::BadAuthenticator,
            OrderError::WrongView => NodeError::WrongView,
            OrderError::OutsideMarks => NodeError::OutsideMarks,
            OrderError::NotPrimary => NodeError::NotPrimary,
            OrderError::Conflicting => NodeError::Conflicting,
            OrderError::AlreadyHave => NodeError::AlreadyHave,
            OrderError::NoCertificate => NodeError::NoCertificate,
            OrderError::Memory => NodeError::Memory,
        }
    }
}

impl From<ViewError> for NodeError {
    ghost from_gives = { λ error given. given ≡ of_view error };

    fn from(error: ViewError) -> NodeError {
        match error {
            ViewError::BadAuthenticator => NodeError::BadAuthenticator,
            ViewError::BadCertificate => NodeError::BadCertificate,
            ViewError::TooFew => NodeError::TooFew,
            ViewError::WrongChoice => NodeError::WrongChoice,
            ViewError::Memory => NodeError::Memory,
        }
    }
}

impl From<DecodeError> for NodeError {
    ghost from_gives = { λ error given. given ≡ of_decoding error };

    fn from(error: DecodeError) -> NodeError {
        match error {
            DecodeError::Malformed => NodeError::Malformed,
            DecodeError::Memory => NodeError::Memory,
        }
    }
}

impl From<AdoptError> for NodeError {
    ghost from_gives = { λ error given. given ≡ of_adopting error };

    fn from(error: AdoptError) -> NodeError {
        match error {
            AdoptError::Malformed => NodeError::MalformedText,
            AdoptError::WrongVersion => NodeError::WrongVersion,
            AdoptError::NotWellFormed => NodeError::NotWellFormed,
            AdoptError::DigestDiffers => NodeError::DigestDiffers,
            AdoptError::Memory => NodeError::Memory,
        }
    }
}

impl From<ExecError> for NodeError {
    ghost from_gives = { λ error given. given ≡ of_executing error };

    fn from(error: ExecError) -> NodeError {
        match error {
            ExecError::Failed => NodeError::Failed,
            ExecError::Memory => NodeError::Memory,
        }
    }
}

impl From<Memory> for NodeError {
    ghost from_gives = { λ _ given. given ≡ errors.Memory };

    fn from(_error: Memory) -> NodeError {
        NodeError::Memory
    }
}

impl From<AllocError> for NodeError {
    ghost from_gives = { λ _ given. given ≡ errors.Memory };

    fn from(_error: AllocError) -> NodeError {
        NodeError::Memory
    }
}
