// How large a batch may be, by the cluster.
use bfs_frames::Limits;
use bfs_service::Terms;
use bfs_testing::same;

// how many replicas may fail, whether all sign, and the bytes of a batch: of 64 MiB for 2f + 2 logs of 32 numbers, less 2f + 1 votes for each
static BATCHES: [(u32, bool, usize); 6] = [
    (0, false, 1_048_576 - 1_124),
    (1, false, 524_288 - 3 * 1_124),
    (1, true, 524_288 - 3 * 12_424),
    (5, true, 174_762 - 11 * 12_424),
    (10, false, 95_325 - 21 * 1_124),
    (10, true, 0),
];

#[test]
fn batches_leave_new_views_room(rt: HostRuntime) {
    for (f, are_signed, most) in &BATCHES {
        let terms = Terms::of(*f, 2_000, &Limits::new(), *are_signed);
        same!(rt; terms.most_batch_bytes, *most);
        same!(rt; terms.patience, 2_000_000);
    }
}

#[test]
fn batches_fit_in_frames(rt: HostRuntime) {
    let limits = Limits {
        order: 65_536,
        ..Limits::new()
    };
    same!(rt; Terms::of(1, 1, &limits, true).most_batch_bytes, 32_768);
}
