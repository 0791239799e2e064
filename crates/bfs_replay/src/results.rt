ghost use Rattle.std.specs.Prelude.{◌≡◌, string_bytes, IfOk};
ghost use Rattle.std.specs.Option.{option_map};
ghost use Rattle.bfs_replay.specs.Inside.Results.{tally_line, tally_lines};
ghost use Rattle.bfs_replay.specs.Output.{answered_line, answered_lines, result_line};
ghost use Rattle.bfs_replay.specs.Writing.{Prints};

use crate::run::ReplayError;
use crate::writing::Output;
use bfs_clients::Tally;
use bfs_types::Memory;
use std::alloc::Global;
use std::io::Write;

/// Writes a line for each request, with what its client makes of the replies.
pub(crate) fn print_results<W: Write>(
    alloc: Global,
    tallies: &[Tally],
    output: &mut Output<W>,
) -> Result<(), ReplayError>
    ensures { Prints result output.old output.new (tally_lines tallies.now) }
{
    for tally in tallies {
        print_tally(alloc, tally, output)?;
    }
    Ok(())
}

fn print_tally<W: Write>(
    alloc: Global,
    tally: &Tally,
    output: &mut Output<W>,
) -> Result<(), ReplayError>
    ensures { Prints result output.old output.new (tally_line tally.now) }
{
    let (client, timestamp) = (tally.client(), tally.timestamp());
    print_result(alloc, client, timestamp, tally.result(), output)
}

/// Writes a line for each request that has a result.
pub(crate) fn print_answered<W: Write>(
    alloc: Global,
    tallies: &[Tally],
    output: &mut Output<W>,
) -> Result<(), ReplayError>
    ensures { Prints result output.old output.new (answered_lines tallies.now) }
{
    for tally in tallies {
        print_if_answered(alloc, tally, output)?;
    }
    Ok(())
}

fn print_if_answered<W: Write>(
    alloc: Global,
    tally: &Tally,
    output: &mut Output<W>,
) -> Result<(), ReplayError>
    ensures { Prints result output.old output.new (answered_line tally.now) }
{
    match tally.result() {
        Some(bytes) => print_result(
            alloc,
            tally.client(),
            tally.timestamp(),
            Some(bytes),
            output,
        ),
        None => Ok(()),
    }
}

fn print_result<W: Write>(
    alloc: Global,
    client: u32,
    timestamp: u64,
    found: Option<&[u8]>,
    output: &mut Output<W>,
) -> Result<(), ReplayError>
    ensures { Prints result output.old output.new (result_line client timestamp (option_map (λ bytes. bytes.now) found.entry)) }
{
    let line = result_line(alloc, client, timestamp, found)?;
    output.write(line.as_bytes())
}

#[tactic(auto, unfolding(crate::specs::Output::result_line))]
fn result_line(
    alloc: Global,
    client: u32,
    timestamp: u64,
    found: Option<&[u8]>,
) -> Result<String, Memory>
    ensures { IfOk result (λ line. string_bytes line ≡ result_line client timestamp (option_map (λ bytes. bytes.now) found.entry)) }
{
    let line = match found {
        None => format!(in alloc; "c{client} t{timestamp} none\n")?,
        Some([]) => format!(in alloc; "c{client} t{timestamp} -\n")?,
        Some(bytes) => {
            let digits = hex::encode(alloc, bytes)?;
            format!(in alloc; "c{client} t{timestamp} {digits}\n")?
        }
    };
    Ok(line)
}
