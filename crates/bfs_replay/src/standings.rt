ghost use Rattle.std.specs.Prelude.{◌≡◌, string_bytes, IfOk};
ghost use Rattle.std.specs.List.{filter_map};
ghost use Rattle.bfs_replay.specs.Output.{standing_line, standing_lines};
ghost use Rattle.bfs_replay.specs.Runs.{digest_in};
ghost use Rattle.bfs_replay.specs.Writing.{Prints};

use crate::run::ReplayError;
use crate::writing::Output;
use bfs_cluster::Standing;
use bfs_types::Memory;
use std::alloc::Global;
use std::io::Write;

/// Writes a line for each: a digest, or how far a replica is.
pub(crate) fn print_standings<W: Write>(
    alloc: Global,
    standings: &[Standing],
    output: &mut Output<W>,
) -> Result<(), ReplayError>
    ensures { Prints result output.old output.new (standing_lines standings.now) }
{
    for standing in standings {
        print_standing(alloc, standing, output)?;
    }
    Ok(())
}

fn print_standing<W: Write>(
    alloc: Global,
    standing: &Standing,
    output: &mut Output<W>,
) -> Result<(), ReplayError>
    ensures { Prints result output.old output.new (standing_line standing.now) }
{
    let line = standing_line(alloc, standing)?;
    output.write(line.as_bytes())
}

#[tactic(auto, unfolding(crate::specs::Output::digest_line, crate::specs::Output::behind_line))]
fn standing_line(alloc: Global, standing: &Standing) -> Result<String, Memory>
    ensures { IfOk result (λ line. string_bytes line ≡ standing_line standing.now) }
{
    let line = match standing {
        Standing::Digest(replica, digest) => {
            let digits = hex::encode(alloc, digest)?;
            format!(in alloc; "digest {replica} {digits}\n")?
        }
        Standing::Behind(replica, last) => format!(in alloc; "behind {replica} {last}\n")?,
    };
    Ok(line)
}

/// The digests among them, which are compared.
pub(crate) fn digests_in(alloc: Global, standings: &[Standing]) -> Result<Vec<[u8; 32]>, Memory>
    ensures { IfOk result (λ digests. digests.items ≡ filter_map digest_in standings.now) }
{
    let mut digests = Vec::new(alloc);
    for standing in standings {
        if let Standing::Digest(_, digest) = standing {
            digests.push(*digest)?;
        }
    }
    Ok(digests)
}
