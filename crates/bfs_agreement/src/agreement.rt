// Agreement across views. The bodies do nothing: what is said is the contracts.
ghost use Rattle.bfs_agreement.specs.Laws.{BatchesAgree, CallsAgree, ChoiceIsByItsRule, MovesAgree, QuorumsAreCarried};

use bfs_votes::quorums::quorums_meet;

/// What 2f + 1 replicas may have committed stands in every NEW-VIEW of a later view by which a correct replica enters, unless that one
/// begins behind its number. So says the key lemma.
pub fn quorums_are_carried()
    ensures { QuorumsAreCarried }
{
    quorums_meet();
}

/// Over all moves that the rules allow, any two replicas that execute a batch for a number, in whatever views, execute one digest.
pub fn moves_agree()
    ensures { MovesAgree }
{
    quorums_meet();
}

/// The choice that a primary computes is one by the rule.
pub fn the_choice_is_by_its_rule()
    ensures { ChoiceIsByItsRule }
{}

/// Over every list of calls and deliveries, any two replicas that execute a batch for a number, in whatever views, execute one digest.
pub fn calls_agree()
    ensures { CallsAgree }
{
    quorums_meet();
}

/// They execute one batch, where no two texts of batches have one digest.
pub fn batches_agree()
    ensures { BatchesAgree }
{
    calls_agree();
}
