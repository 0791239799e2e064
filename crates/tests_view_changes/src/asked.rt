//! The VIEW-CHANGEs that come to one replica. Number 1 was prepared in view 0.
use crate::parts::{Asked, Batch, Prepared, Told};

const AT_FIVE: Batch = Batch::At(5);

const HELD: &[Prepared] = &[Prepared(0, 1, 0, &[1, 2], AT_FIVE)];

/// What a NEW-VIEW proposes then.
pub const PROPOSED: &[(u64, Batch)] = &[(1, AT_FIVE)];

/// Those of replicas 1 to 3 for view 1, with the PREPAREs that number 1 wants.
pub const OF_ONE: Asked<'static> = Asked {
    sender: 1,
    view: 1,
    stable: 0,
    told: &[],
    held: HELD,
};

pub const OF_TWO: Asked<'static> = Asked {
    sender: 2,
    ..OF_ONE
};

pub const OF_THREE: Asked<'static> = Asked {
    sender: 3,
    ..OF_ONE
};

/// That of replica 2 where number 16 is stable, and number 18 was prepared.
pub const STABLE_OF_TWO: Asked<'static> = Asked {
    stable: 16,
    told: &[Told(0, 16), Told(1, 16), Told(2, 16)],
    held: &[Prepared(0, 18, 0, &[1, 2], AT_FIVE)],
    ..OF_TWO
};

/// That of replica 3 for view 2.
pub const FOR_ANOTHER_VIEW: Asked<'static> = Asked {
    view: 2,
    ..OF_THREE
};

/// That of replica 3 with a PREPARE less than number 1 wants.
pub const A_PREPARE_LESS: Asked<'static> = Asked {
    held: &[Prepared(0, 1, 0, &[1], AT_FIVE)],
    ..OF_THREE
};
