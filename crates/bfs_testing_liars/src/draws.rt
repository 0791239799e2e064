//! What is drawn at random, and the same for a seed each time.
use crate::sets::Set;
use bfs_testing::generated::Generator;
use bfs_testing::numbers::{CREATE, NULL};

/// A number below that one.
pub fn below(draws: &mut Generator, most: u32) -> u32 {
    draws.next() % most.max(1)
}

/// Whether something happens that happens so often among a hundred times.
pub fn happens(draws: &mut Generator, percent: u32) -> bool {
    below(draws, 100) < percent
}

/// Any of so many replicas.
pub fn any_of(draws: &mut Generator, count: usize) -> usize {
    draws.next() as usize % count.max(1)
}

/// Some of the replicas.
pub fn some(draws: &mut Generator) -> Set {
    Set(draws.next())
}

/// What draws the numbers of a seed.
pub fn draws_of(seed: u64) -> Generator {
    let mut draws = Generator {
        state: seed.wrapping_mul(0x9e37_79b9_7f4a_7c15),
        procedures: &[NULL, CREATE],
        files: (3, 4),
        dirs: (2, 1),
        names: 3,
        callers: 0,
    };
    draws.next();
    draws
}

/// f of them, the first primary more often than others.
pub fn liars_among(draws: &mut Generator, f: u32) -> Set {
    let count = 3 * (f % 11) + 1;
    let mut liars = Set(0);
    let first = if happens(draws, 40) {
        0
    } else {
        below(draws, count)
    };
    let apart = below(draws, 3).saturating_add(1);
    for which in 0..f % 11 {
        let behind = first.wrapping_add(which.wrapping_mul(apart));
        liars = liars.with((behind % count) as usize);
    }
    liars
}

/// Who hears others for a while: all, all but one, or any.
pub fn hearing(draws: &mut Generator, count: usize) -> Set {
    match below(draws, 8) {
        0..=2 => Set::ALL,
        3..=5 => Set::of(any_of(draws, count)).others(),
        6 => Set::of(any_of(draws, count)).with(any_of(draws, count)),
        _ => some(draws),
    }
}
