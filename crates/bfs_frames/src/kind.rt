ghost use Rattle.std.specs.Prelude.{◌≡◌};
ghost use Rattle.bfs_frames.specs.Kinds.{kind_at, number_of};

/// What a frame is. The texts of messages are those of `bfs_codec`.
#[derive(Clone, Copy, Debug, PartialEq, Eq)]
pub enum Kind {
    /// The text of a REQUEST.
    Request,
    /// The text of a message of the order: a PRE-PREPARE, PREPARE, COMMIT or CHECKPOINT.
    Order,
    /// The text of a VIEW-CHANGE.
    ViewChange,
    /// The text of a NEW-VIEW.
    NewView,
    /// The text of a REPLY.
    Reply,
    /// How far a replica is, as it says itself.
    Status,
    /// A replica wants another's stable state.
    AskState,
    /// A stable state, with what shows it.
    State,
    /// The operator wants a report.
    AskReport,
    /// What a process reports of itself.
    Report,
    /// A call of an NFS client: a ticket of 8 bytes, and an RPC message without a record mark.
    Call,
    /// The reply to a call: its ticket of 8 bytes, and an RPC message without a record mark.
    Answer,
    /// A line for the operator's log.
    Log,
}

impl Kind {
    /// The kind of a number, or `None` if there is none.
    pub fn new(number: u8) -> Option<Kind>
        ensures { result ≡ kind_at number }
    {
        Some(match number {
            1 => Kind::Request,
            2 => Kind::Order,
            3 => Kind::ViewChange,
            4 => Kind::NewView,
            5 => Kind::Reply,
            6 => Kind::Status,
            7 => Kind::AskState,
            8 => Kind::State,
            9 => Kind::AskReport,
            10 => Kind::Report,
            11 => Kind::Call,
            12 => Kind::Answer,
            13 => Kind::Log,
            _ => return None,
        })
    }

    /// Its number, with which a frame begins.
    pub fn number(self) -> u8
        ensures { result ≡ number_of self }
    {
        match self {
            Kind::Request => 1,
            Kind::Order => 2,
            Kind::ViewChange => 3,
            Kind::NewView => 4,
            Kind::Reply => 5,
            Kind::Status => 6,
            Kind::AskState => 7,
            Kind::State => 8,
            Kind::AskReport => 9,
            Kind::Report => 10,
            Kind::Call => 11,
            Kind::Answer => 12,
            Kind::Log => 13,
        }
    }
}
