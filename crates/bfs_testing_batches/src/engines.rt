//! The engines that tests go through.
use bfs_parallel::Engine;

/// Those that execute batches on threads.
pub static ON_THREADS: &[Engine] = &[Engine::Runs, Engine::Levels];

/// All; `None` executes one request after another, whatever the number of workers.
pub static ALL: &[Option<Engine>] = &[None, Some(Engine::Runs), Some(Engine::Levels)];
