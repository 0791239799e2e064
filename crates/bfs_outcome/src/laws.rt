// What holds of ordered batches. The bodies are empty: what is said is the contracts.
ghost use Rattle.bfs_outcome.specs.Laws.Replicas.{EqualReplicasStayEqual, ReplicasComeToTheOutcomes};
ghost use Rattle.bfs_outcome.specs.Laws.Tables.{AnswersGoToClients, ClientsStay};
ghost use Rattle.bfs_outcome.specs.Laws.TwoPasses.{TwoPassesComeToTheOutcome};

/// Executing the new requests of a batch together, and recording and telling the replies afterwards, comes to what executing, recording
/// and telling them one after another comes to.
pub fn two_passes_come_to_the_outcome()
    ensures { TwoPassesComeToTheOutcome }
{}

/// Only a client of the table is answered, and the outcome's table has the same clients.
pub fn answers_go_to_clients()
    ensures answers { AnswersGoToClients }
    ensures table { ClientsStay }
{}

/// Replicas that begin with equal file systems and tables, and execute the same batches one after another, by whatever executors, end
/// with equal file systems and tables, and answer alike.
pub fn equal_replicas_stay_equal()
    ensures outcomes { ReplicasComeToTheOutcomes }
    ensures equal { EqualReplicasStayEqual }
{}
