ghost use Rattle.std.specs.Prelude.{◌≡◌};
ghost use Rattle.bfs_model.specs.Bytes.Arguments as model;

use bfs_types::FileId;

/// The file handle of that file (RFC 1094 section 2.3.3): `BFS2`, the fsid 1, the fileid, and twenty
/// zeros.
#[tactic(auto, unfolding(bfs_model::specs::Bytes::Arguments::handle, bfs_model::specs::Bytes::Items::word))]
pub fn handle_bytes(file: FileId) -> [u8; 32]
    ensures { result ≡ model.handle file }
{
    let id = file.number().to_be_bytes();
    [
        b'B', b'F', b'S', b'2', 0, 0, 0, 1, id[0], id[1], id[2], id[3], 0, 0, 0, 0, 0, 0, 0, 0, 0,
        0, 0, 0, 0, 0, 0, 0, 0, 0, 0, 0,
    ]
}

/// The file whose handle the bytes are, or `None` if they are no handle of this file system.
#[tactic(auto, using(bfs_model::proofs::Public::other_lengths_lead_nowhere), unfolding(bfs_model::specs::Bytes::Arguments::handle_id))]
pub fn handle_id(bytes: &[u8]) -> Option<FileId>
    ensures { result ≡ model.handle_id bytes.now }
{
    if bytes.len() != 32 {
        return None;
    }
    let (_, at_id) = bytes.split_at(8);
    let id = FileId::new(u32::from_be_bytes([at_id[0], at_id[1], at_id[2], at_id[3]]));
    if bytes == handle_bytes(id).as_slice() {
        Some(id)
    } else {
        None
    }
}
