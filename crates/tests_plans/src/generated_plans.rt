//! Plans of generated batches against a plain planner, which compares calls pair by pair.
use crate::plans::{Asked, group_of, has_levels, run_length, with_executed};
use bfs_footprint::{Touch, conflicts, touch_of};
use bfs_serial::{Batch, FileSystem};
use bfs_testing::asserts::compared;
use bfs_testing::generated::Generator;
use bfs_testing::numbers::{CREATE, MKDIR, SYMLINK};
use bfs_testing::words::{A, B, C, D, E, FOURTH, ROOT, UNSET, put_parts};
use bfs_types::{FileId, Memory, Ordinal};
use std::alloc::Global;
use std::test::Fail;

// all procedures, and a number that is none
static PROCEDURES: &[u32] = &[
    0, 1, 2, 3, 4, 5, 6, 7, 8, 9, 10, 11, 12, 13, 14, 15, 16, 17, 18,
];

// any handle stands for a file and for a directory: that of an inode which is there or isn't
fn generator() -> Generator {
    Generator {
        state: 1,
        procedures: PROCEDURES,
        files: (1, 9),
        dirs: (1, 9),
        names: 9,
        callers: 4,
    }
}

// a request, one in sixteen with a word too many
fn request(alloc: Global, generator: &mut Generator) -> Result<Vec<u8>, Memory> {
    let mut bytes = generator.request(alloc)?;
    if generator.next() % 16 == 0 {
        put_parts(&mut bytes, &[&[7]])?;
    }
    Ok(bytes)
}

fn generated(alloc: Global, generator: &mut Generator) -> Result<Batch, Fail> {
    let mut batch = Batch::new(alloc);
    for _ in 0..24 {
        batch.push(request(alloc, generator)?.as_slice())?;
    }
    Ok(batch)
}

fn touch_at(
    files: &FileSystem,
    ordinal: Ordinal,
    batch: &Batch,
    place: usize,
) -> Result<Touch, Fail> {
    let tree = files.tree().ok_or("a live file system")?;
    if batch.len() <= place {
        return Err("a request".into());
    }
    Ok(touch_of(tree, ordinal, batch.time(), batch.request(place)))
}

// what the batch's requests touch, from that place on
fn touches(
    alloc: Global,
    files: &FileSystem,
    ordinal: Ordinal,
    batch: &Batch,
    first: usize,
) -> Result<Vec<Touch>, Fail> {
    let mut touches = Vec::new(alloc);
    let mut ordinal = ordinal;
    for place in first..batch.len() {
        touches.push(touch_at(files, ordinal, batch, place)?)?;
        ordinal = ordinal.next();
    }
    Ok(touches)
}

fn is_written(earlier: &Touch, dir: Option<FileId>) -> bool {
    match dir {
        Some(dir) => earlier.footprint.writes(dir),
        None => false,
    }
}

// whether two calls can't be in one group
fn parts_groups(earlier: &Touch, later: &Touch) -> bool {
    earlier.footprint.is_whole()
        || later.footprint.is_whole()
        || is_written(earlier, later.resolved.first)
        || is_written(earlier, later.resolved.second)
}

fn are_parted(earlier: &Touch, later: &Touch, groups: bool) -> bool {
    if groups {
        parts_groups(earlier, later)
    } else {
        conflicts(&earlier.footprint, &later.footprint)
    }
}

fn is_parted(touches: &[Touch], count: usize, later: &Touch, groups: bool) -> bool {
    let mut place = 0;
    for earlier in touches {
        if place >= count {
            return false;
        }
        if are_parted(earlier, later, groups) {
            return true;
        }
        place = place.saturating_add(1);
    }
    false
}

fn count_joined(touches: &[Touch], groups: bool) -> usize {
    let mut count = 0;
    for touch in touches {
        if is_parted(touches, count, touch, groups) {
            return count;
        }
        count = count.saturating_add(1);
    }
    count
}

// the level of a call at least, behind an earlier one of that level
fn level_above(level: u32, earlier: Option<&Touch>, later: &Touch) -> u32 {
    match earlier {
        Some(earlier) if conflicts(&earlier.footprint, &later.footprint) => level.saturating_add(1),
        _ => 0,
    }
}

fn level_behind(touches: &[Touch], levels: &[u32], later: &Touch) -> u32 {
    let mut level = 0;
    let mut place = 0;
    for own in levels {
        level = level.max(level_above(*own, touches.get(place), later));
        place = place.saturating_add(1);
    }
    level
}

fn levels_of(alloc: Global, touches: &[Touch], count: usize) -> Result<Vec<u32>, Memory> {
    let mut levels = Vec::new(alloc);
    for touch in touches {
        if levels.len() >= count {
            return Ok(levels);
        }
        let level = level_behind(touches, levels.as_slice(), touch);
        levels.push(level)?;
    }
    Ok(levels)
}

fn compare_at(alloc: Global, files: &FileSystem, batch: &Batch, first: usize) -> Result<(), Fail> {
    let ordinal = Ordinal::first().after(8).after(first as u64);
    let touches = touches(alloc, files, ordinal, batch, first)?;
    let joined = count_joined(touches.as_slice(), false);
    compared(run_length(alloc, files, ordinal, batch, first)?, joined)?;
    let count = count_joined(touches.as_slice(), true);
    let levels = levels_of(alloc, touches.as_slice(), count)?;
    let group = group_of(alloc, files, ordinal, batch, first)?;
    compared(has_levels(&group, levels.as_slice()), true)?;
    Ok(())
}

const PATH: &[u32] = &[1, 0x62000000];

// the files `a` and `b`, the directories `c` and `c/d`, and a symbolic link in each
static MAKING: &[Asked] = &[
    Asked(CREATE, &[ROOT, A, UNSET]),
    Asked(MKDIR, &[ROOT, C, UNSET]),
    Asked(CREATE, &[ROOT, B, UNSET]),
    Asked(MKDIR, &[FOURTH, D, UNSET]),
    Asked(SYMLINK, &[ROOT, E, PATH, UNSET]),
    Asked(SYMLINK, &[FOURTH, E, PATH, UNSET]),
];

fn compare(alloc: Global, files: &FileSystem, generator: &mut Generator) -> Result<(), Fail> {
    let batch = generated(alloc, generator)?;
    compare_at(alloc, files, &batch, 0)?;
    compare_at(alloc, files, &batch, generator.next() as usize % 24)
}

fn compare_all(alloc: Global, files: &FileSystem) -> Result<(), Fail> {
    let mut generator = generator();
    for _ in 0..500 {
        compare(alloc, files, &mut generator)?;
    }
    Ok(())
}

#[test]
fn plans_generated_batches_as_pair_by_pair(rt: HostRuntime) -> Result<(), Fail> {
    compare_all(rt.alloc(), &with_executed(rt.alloc(), MAKING)?)
}
