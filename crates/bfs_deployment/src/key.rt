ghost use Rattle.std.specs.Prelude.{◌≡◌};
ghost use Rattle.bfs_deployment.specs.Keys.{limit_name, name_of};

use bfs_frames::Kind;
use std::fmt;

/// A key of the document.
#[derive(Clone, Copy, Debug)]
pub enum Key {
    /// How many replicas may fail.
    F,
    /// How many clients there are.
    Clients,
    /// The addresses of the replicas.
    Replicas,
    /// The address of the relay.
    Relay,
    /// The address at which the relay tells its port (RFC 1057 appendix A).
    Portmap,
    /// How long a replica waits for a request to be executed.
    Patience,
    /// The public keys of clients that sign their requests.
    Signers,
    /// The public keys of replicas that sign what is of a place.
    ReplicaSigners,
    /// The table of limits.
    Limits,
    /// In that table: the most bytes of a frame of that kind.
    Limit(Kind),
}

impl Key {
    /// Its name in its table.
    pub fn name(self) -> &'static str
        ensures { result.now ≡ name_of self }
    {
        match self {
            Key::F => "f",
            Key::Clients => "clients",
            Key::Replicas => "replicas",
            Key::Relay => "relay",
            Key::Portmap => "portmap",
            Key::Patience => "patience",
            Key::Signers => "signers",
            Key::ReplicaSigners => "replica_signers",
            Key::Limits => "limits",
            Key::Limit(kind) => limit_name(kind),
        }
    }

    /// What its value is to be, in words.
    pub(crate) fn wanted(self) -> &'static str {
        match self {
            Key::F | Key::Clients | Key::Patience | Key::Limit(_) => "whole number",
            Key::Replicas | Key::Signers | Key::ReplicaSigners => "array of texts",
            Key::Relay | Key::Portmap => "text",
            Key::Limits => "table",
        }
    }
}

fn limit_name(kind: Kind) -> &'static str
    ensures { result.now ≡ limit_name kind }
{
    match kind {
        Kind::Request => "request",
        Kind::Order => "order",
        Kind::ViewChange => "view_change",
        Kind::NewView => "new_view",
        Kind::Reply => "reply",
        Kind::Status => "status",
        Kind::AskState => "ask_state",
        Kind::State => "state",
        Kind::AskReport => "ask_report",
        Kind::Report => "report",
        Kind::Call => "call",
        Kind::Answer => "answer",
        Kind::Log => "log",
    }
}

impl fmt::Display for Key {
    fn fmt<W: fmt::Write>(&self, f: &mut fmt::Formatter<W>) -> fmt::Result {
        if let Key::Limit(_) = self {
            f.write_str("limits.")?;
        }
        f.write_str(self.name())
    }
}
