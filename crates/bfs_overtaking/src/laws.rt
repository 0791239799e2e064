ghost use Rattle.bfs_overtaking.specs.Laws.Overtaking.{EventsAreSteps, EventsOvertake, PlansAreGroups, StepsAreAccepted};

/// Requests that were planned together are a group, of which a core can be made.
pub fn plans_are_groups()
    ensures { PlansAreGroups }
{}

/// Events that a core accepts are events of the overtaking law, and the core stands where they lead there.
pub fn events_are_steps()
    ensures { EventsAreSteps }
{}

/// And all events of the overtaking law, of a group, are accepted, and lead to the same.
pub fn steps_are_accepted()
    ensures { StepsAreAccepted }
{}

/// Whatever the events by which all calls of a group are finished, the inodes and the replies are those of the calls one after
/// another, in the order of the batch.
pub fn events_overtake()
    ensures { EventsOvertake }
{}
