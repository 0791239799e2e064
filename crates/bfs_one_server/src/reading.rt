// What users read from one server. The bodies do nothing: what is said is the contracts.
ghost use Rattle.bfs_one_server.specs.Creating.{CreatesMakeFiles};
ghost use Rattle.bfs_one_server.specs.Reading.{AnswersBehindAll, ReadersSeeParts, ReadersSeeWrites};
ghost use Rattle.bfs_one_server.specs.Users.{AcceptedWritesAreRead, RequestsTakeEffectOnce};

use crate::laws::clients_see_one_server;

/// In what one server serves, each reply is that of the server behind all that stands before it.
#[tactic(auto, using(crate::proofs::Readers::answers_behind_all))]
pub fn answers_stand_behind_all()
    ensures { AnswersBehindAll }
{}

/// A READ that is done, of as many bytes as a WRITE wrote that was done before it, and from where it wrote them, gives these bytes, unless
/// a request between them wrote the file or set its size (RFC 1094 sections 2.2.3, 2.2.7 and 2.2.9).
pub fn readers_see_writes()
    ensures { ReadersSeeWrites }
{}

/// And a READ of a part of them gives that part.
pub fn readers_see_parts_of_writes()
    ensures { ReadersSeeParts }
{}

/// A CREATE that is done makes one file and no other inode, under its name in the directory, and its reply has the file's handle (RFC 1094
/// section 2.2.10).
pub fn creates_make_files()
    ensures { CreatesMakeFiles }
{}

/// A WRITE and a READ of the same place, of whichever correct clients, the READ signed once the WRITE was accepted: where no request that takes effect
/// between them rewrites the file, the READ is accepted with the bytes that were written.
pub fn accepted_writes_are_read()
    ensures { AcceptedWritesAreRead }
{
    clients_see_one_server();
    readers_see_writes();
}

/// A request takes effect at one place, however often it is sent, ordered and accepted, and each result that its client accepts is the reply there. So
/// a CREATE that is sent again makes one file.
pub fn requests_take_effect_once()
    ensures { RequestsTakeEffectOnce }
{
    clients_see_one_server();
}
