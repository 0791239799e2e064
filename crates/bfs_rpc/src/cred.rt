ghost use Rattle.std.specs.Prelude.{◌≡◌, ◌≤◌};
ghost use Rattle.std.specs.Option.{option_map};
ghost use Rattle.bfs_model.specs.Bytes.Call as model;

use bfs_types::{Cred, Gids, MOST_GIDS};
use bfs_xdr::Reader;

const AUTH_NONE: u32 = 0;

const AUTH_SYS: u32 = 1;

const NOBODY: u32 = 65534;

// the most bytes of a machine's name (RFC 5531 appendix A)
const MAX_MACHINE_NAME: u32 = 255;

/// The caller that a credential of that flavor and body names (RFC 5531 sections 8.2 and 10.1, appendix A), or `None` where
/// it is neither AUTH_NONE nor a well-formed AUTH_SYS.
#[tactic(auto, unfolding(bfs_model::specs::Bytes::Call::credential_of))]
pub(crate) fn cred_of(flavor: u32, body: &[u8]) -> Option<Cred>
    ensures { result ≡ model.credential_of flavor body.now }
{
    match flavor {
        AUTH_NONE => Some(Cred {
            uid: NOBODY,
            gid: NOBODY,
            gids: Gids::none(),
        }),
        AUTH_SYS => system_cred_of(body),
        _ => None,
    }
}

#[tactic(auto, unfolding(bfs_model::specs::Bytes::Call::system_credential_of))]
fn system_cred_of(body: &[u8]) -> Option<Cred>
    ensures { result ≡ model.system_credential_of body.now }
{
    let mut reader = Reader::new(body);
    let _stamp = reader.u32().ok()?;
    let _machine = reader.opaque(MAX_MACHINE_NAME).ok()?;
    let uid = reader.u32().ok()?;
    let gid = reader.u32().ok()?;
    let count = reader.u32().ok()?;
    if count as usize > MOST_GIDS {
        return None;
    }
    let gids = gids_at(count, &mut reader)?;
    if reader.rest().is_empty() {
        Some(Cred { uid, gid, gids })
    } else {
        None
    }
}

// so many further gids, which are read
fn gids_at(count: u32, reader: &mut Reader) -> Option<Gids>
    requires { count ≤ MOST_GIDS }
    ensures { option_map (λ gids. (gids, reader.new.left)) result ≡ model.words_at count reader.old.left }
{
    let mut gids = Gids::none();
    for _counter in 0..count {
        gids.push(reader.u32().ok()?);
    }
    Some(gids)
}
