ghost use Rattle.std.specs.Prelude.{◌≡◌, ◌<◌, ◌^◌};
ghost use Rattle.bfs_auth.specs.Principals.{number_of};

/// The number of client 0 among all principals: replicas have those below it.
pub const FIRST_CLIENT: u32 = 4_096;

/// Who sends and receives messages.
#[derive(Clone, Copy, Debug, PartialEq, Eq)]
pub enum Principal {
    /// The replica of that number, from 0 on.
    Replica(u32),
    /// The client of that number, from 0 on.
    Client(u32),
}

impl Principal {
    /// Its number among all principals: a replica has its own, and clients have those from `FIRST_CLIENT` on.
    pub fn number(self) -> u32
        requires { number_of self < 2 ^ 32 }
        ensures { result ≡ number_of self }
    {
        match self {
            Principal::Replica(number) => number,
            Principal::Client(number) => FIRST_CLIENT + number,
        }
    }
}
