ghost use Rattle.bfs_handover.specs.Laws.Carrying.{SplitRequestsAreCarriedOut};
ghost use Rattle.bfs_handover.specs.Laws.Homecoming.{ResultsAreOut, ResultsComeHome};
ghost use Rattle.bfs_handover.specs.Merging.{CompleteResultsAreTaken};

/// Results of which each number has just one are not refused: `merge` then fails only if memory runs out.
pub fn complete_results_are_taken()
    ensures { CompleteResultsAreTaken }
{}

/// Results of jobs that were split off a tree may be merged into what stayed, whatever their order: the fileids of each are lent out to
/// it alone.
pub fn results_are_out()
    ensures { ResultsAreOut }
{}

/// Where requests of which none conflicts with another are split off a tree, run on what stayed, in any order, and their results are
/// merged, the inodes and the replies are those of the requests carried out one after another, and the tree is whole.
pub fn results_come_home()
    ensures { ResultsComeHome }
{}

/// Where requests are split off a tree, run on what stayed, in any order, and their results are merged, each is carried out on its share,
/// and the tree is whole.
pub fn split_requests_are_carried_out()
    ensures { SplitRequestsAreCarriedOut }
{}
