// The laws speak of something. The bodies do nothing: what is said is the contracts.
ghost use Rattle.bfs_agreement.specs.Examples.{IsARun, NeedsAuthenticity, NeedsDistinctDigests, NeedsDistinctStates, NeedsFewFaulty, RunsAgree};

use crate::agreement::calls_agree;

/// There is a run with a view change in which the premises hold, and a batch is executed in both views.
pub fn there_is_a_run()
    ensures { IsARun }
{}

/// What the law says of it: the two that were executed are of one digest.
pub fn the_run_agrees()
    ensures { RunsAgree }
{
    calls_agree();
    there_is_a_run();
}

/// Where two of four replicas are faulty, two others execute two digests for one number.
pub fn agreement_needs_few_faulty()
    ensures { NeedsFewFaulty }
{}

/// So they do where messages that a correct replica never sent pass under its name.
pub fn agreement_needs_authenticity()
    ensures { NeedsAuthenticity }
{}

/// And where two texts have one digest, replicas that execute that digest may have executed two texts.
pub fn agreement_needs_distinct_digests()
    ensures { NeedsDistinctDigests }
{
    there_is_a_run();
}

/// Likewise a replica may adopt another state than the one that others are in, where both have one digest.
pub fn agreement_needs_distinct_states()
    ensures { NeedsDistinctStates }
{}
