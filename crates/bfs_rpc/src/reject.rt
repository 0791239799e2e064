ghost use Rattle.std.specs.Prelude.{◌≡◌};
ghost use Rattle.bfs_rpc.specs.Calls.{code_of};

use thiserror::Error;

/// Why a message is refused (RFC 5531 section 9). All but the first hold the xid of the call, under which it is answered.
#[derive(Clone, Copy, Debug, PartialEq, Eq, Error)]
pub enum Reject {
    /// The header can't be read, or the message is no call: there is no reply.
    #[error("the message is not a call")]
    Silent,
    /// RPC_MISMATCH: the version of RPC is not 2.
    #[error("call {0}: the version of RPC is not 2")]
    RpcMismatch(u32),
    /// AUTH_BADCRED: the credential is neither AUTH_NONE nor a well-formed AUTH_SYS.
    #[error("call {0}: the credential can't be read")]
    BadCred(u32),
    /// PROG_UNAVAIL: the program is not NFS, whose number is 100003.
    #[error("call {0}: the program is not NFS")]
    ProgUnavail(u32),
    /// PROG_MISMATCH: the version of NFS is not 2.
    #[error("call {0}: the version of NFS is not 2")]
    ProgMismatch(u32),
    /// PROC_UNAVAIL: there is no such procedure.
    #[error("call {0}: there is no such procedure")]
    ProcUnavail(u32),
}

impl Reject {
    /// The number of this error, which no other error of the file system has.
    pub fn code(self) -> u32
        ensures { result ≡ code_of self }
    {
        match self {
            Reject::Silent => 5,
            Reject::RpcMismatch(_) => 6,
            Reject::BadCred(_) => 7,
            Reject::ProgUnavail(_) => 8,
            Reject::ProgMismatch(_) => 9,
            Reject::ProcUnavail(_) => 10,
        }
    }
}
