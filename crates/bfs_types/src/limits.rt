//! How large things may be that more than one crate knows: code and contracts cite these constants by name, and each is tied to the model's
//! here.
ghost use Rattle.std.specs.Prelude.{◌≡◌, ℕ, ◌+◌, ◌%◌};
ghost use Rattle.bfs_model.specs.Bytes.Attributes.{block_size, total_blocks, transfer_size};
ghost use Rattle.bfs_model.specs.Server.Changes.{permission_bits};
ghost use Rattle.bfs_model.specs.Server.Limits.{most_file_bytes, most_data_bytes, most_name_bytes, most_path_bytes, most_entries, most_links, most_request_bytes, most_reply_bytes, most_requests, most_faults, most_replicas, most_clients, most_number, log_size, checkpoint_interval};

/// The bytes of a file.
pub const MOST_FILE_BYTES: usize = 16_777_216;

/// The bytes that one READ or WRITE moves, and those of a page of READDIR (RFC 1094 section 3.5, MAXDATA).
pub const MOST_DATA_BYTES: usize = 8_192;

/// The bytes of a name (RFC 1094 section 3.5, MAXNAMLEN).
pub const MOST_NAME_BYTES: usize = 255;

/// The bytes of a symbolic link's path (RFC 1094 section 3.5, MAXPATHLEN).
pub const MOST_PATH_BYTES: usize = 1_024;

/// The entries of a directory, `.` and `..` not counted.
pub const MOST_ENTRIES: usize = 65_536;

/// The links of an inode.
pub const MOST_LINKS: u32 = 32_767;

/// The permissions of an inode, which are the twelve low bits of its mode: all of them set.
pub const MOST_PERMISSIONS: u32 = 0o7777;

/// The bytes of a request.
pub const MOST_REQUEST_BYTES: usize = 16_384;

/// The bytes of a reply.
pub const MOST_REPLY_BYTES: usize = 16_384;

/// The requests of a batch.
pub const MOST_REQUESTS: usize = 1_024;

/// The replicas that may fail.
pub const MOST_FAULTS: u32 = 10;

/// The replicas: 3f + 1 of them do where at most f fail (OSDI 1999 section 3).
pub const MOST_REPLICAS: usize = 3 * MOST_FAULTS as usize + 1;

/// The clients.
pub const MOST_CLIENTS: u32 = 1_024;

/// The number of a view, and of a batch in the order: below 2^63.
pub const MOST_NUMBER: u64 = (1 << 63) - 1;

/// The numbers between the low and the high mark (OSDI 1999 section 4.3), and so the batches that are ordered at once.
pub const LOG_SIZE: usize = 32;

/// How many numbers apart checkpoints are (OSDI 1999 section 4.3).
pub const CHECKPOINT_INTERVAL: u64 = 16;

/// The bytes of a block (RFC 1094 section 2.2.18, bsize).
pub const BLOCK_SIZE: u32 = 4_096;

/// The blocks of the file system, free or not (RFC 1094 section 2.2.18, blocks).
pub const TOTAL_BLOCKS: u32 = 262_144;

/// The bytes that a READ or a WRITE moves at best: as many as it may (RFC 1094 section 2.2.18, tsize).
pub const TRANSFER_SIZE: u32 = MOST_DATA_BYTES as u32;

/// The limits of the code are those of the model. The body is empty: what is said is its contract.
pub fn limits_are_those_of_the_model()
    ensures file_bytes { MOST_FILE_BYTES ≡ most_file_bytes }
    ensures data_bytes { MOST_DATA_BYTES ≡ most_data_bytes }
    ensures name_bytes { MOST_NAME_BYTES ≡ most_name_bytes }
    ensures path_bytes { MOST_PATH_BYTES ≡ most_path_bytes }
    ensures entries { MOST_ENTRIES ≡ most_entries }
    ensures links { MOST_LINKS ≡ most_links }
    ensures permissions { (mode : ℕ) → mode % (MOST_PERMISSIONS + 1) ≡ permission_bits mode }
    ensures request_bytes { MOST_REQUEST_BYTES ≡ most_request_bytes }
    ensures reply_bytes { MOST_REPLY_BYTES ≡ most_reply_bytes }
    ensures requests { MOST_REQUESTS ≡ most_requests }
    ensures faults { MOST_FAULTS ≡ most_faults }
    ensures replicas { MOST_REPLICAS ≡ most_replicas }
    ensures clients { MOST_CLIENTS ≡ most_clients }
    ensures number { MOST_NUMBER ≡ most_number }
    ensures log_size { LOG_SIZE ≡ log_size }
    ensures interval { CHECKPOINT_INTERVAL ≡ checkpoint_interval }
    ensures block_size { BLOCK_SIZE ≡ block_size }
    ensures total_blocks { TOTAL_BLOCKS ≡ total_blocks }
    ensures transfer_size { TRANSFER_SIZE ≡ transfer_size }
{}
