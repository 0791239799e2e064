// What holds of a replica after any calls. The bodies do nothing: what is said is the contracts.
ghost use Rattle.bfs_order.specs.Laws.Calls.{CallsKeepTheReplica, IsAlways, IsKept};
ghost use Rattle.bfs_order.specs.Laws.Certificates.{CertificatesMakeStable};
ghost use Rattle.bfs_order.specs.Laws.Clean.{LogsAreClean, ProperCallsKeepLogsClean};
ghost use Rattle.bfs_order.specs.Laws.Executed.{NextHasItsCertificate, OnlyTheNextIsExecuted};
ghost use Rattle.bfs_order.specs.Laws.Logs.{HasCertificate, HasDistinctSlots, HasNoLaterView, IsWindowed};
ghost use Rattle.bfs_order.specs.Laws.Resent.{AllOfItIsResent, WhatIsResentIsOwn};
ghost use Rattle.bfs_order.specs.Laws.Sent.{KeepsWhatItSaid, SaysOneDigest, SpeaksForItself};

use bfs_auth::what_is_signed_passes;

/// No two messages of a log have one kind, sender, view and number.
pub fn slots_differ()
    ensures kept { IsKept HasDistinctSlots }
    ensures always { IsAlways HasDistinctSlots }
{}

/// The messages of a log are PRE-PREPAREs, PREPAREs and COMMITs above the low mark, and CHECKPOINTs not below it, of numbers up to the high mark.
pub fn numbers_lie_in_the_window()
    ensures kept { IsKept IsWindowed }
    ensures always { IsAlways IsWindowed }
{}

/// The log has the certificate of the stable checkpoint, and no CHECKPOINT of that number tells another digest.
pub fn the_stable_checkpoint_has_its_certificate()
    ensures kept { IsKept HasCertificate }
    ensures always { IsAlways HasCertificate }
{}

/// No message of a log is of a later view than the one entered.
pub fn views_are_entered()
    ensures kept { IsKept HasNoLaterView }
    ensures always { IsAlways HasNoLaterView }
{}

/// No call changes how many replicas there are, nor which one it is.
pub fn a_replica_stays_itself()
    ensures { CallsKeepTheReplica }
{}

/// By its own keys each message of a replica's log is what its sender may send, where its calls are made with these keys, and the
/// requests that it proposes and the messages that it takes over into a view pass by them.
pub fn logs_are_clean()
    ensures kept { ProperCallsKeepLogsClean }
    ensures always { LogsAreClean }
{
    what_is_signed_passes();
}

/// A replica sends messages in its own name alone. Its PRE-PREPARE, PREPARE and COMMIT for a number of a view tell one digest, and
/// stay in its log until a stable checkpoint covers the number.
pub fn what_is_sent_says_one_digest()
    ensures own { SpeaksForItself }
    ensures one { SaysOneDigest }
    ensures kept { KeepsWhatItSaid }
{}

/// What a replica gives again stands in its log under its own name: no message is left out of those of its view above the number that the other
/// one has executed, if both are in that view, and of its CHECKPOINTs above the stable number there.
pub fn what_is_resent_is_its_own()
    ensures own { WhatIsResentIsOwn }
    ensures all { AllOfItIsResent }
{}

/// What a replica executes is committed: the PRE-PREPARE with that batch stands in its log, and so do the PREPAREs of 2f backups and the
/// COMMITs of 2f + 1 replicas, its own among them, that tell its digest in the view entered.
pub fn what_is_executed_has_its_certificate()
    ensures next { NextHasItsCertificate }
    ensures executed { OnlyTheNextIsExecuted }
{}

/// The messages of a certificate that can be installed make its checkpoint stable by themselves: 2f + 1 replicas tell it.
pub fn certificates_make_checkpoints_stable()
    ensures { CertificatesMakeStable }
{}
