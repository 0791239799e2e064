ghost use Rattle.std.specs.Prelude.{◌≡◌, ◌≤◌, IfOk};
ghost use Rattle.toml.specs.View.{table_view, view};
ghost use Rattle.bfs_frames.specs.Frames.{most_of};
ghost use Rattle.bfs_deployment.specs.Keys.{limit_keys};
ghost use Rattle.bfs_frames.specs.Limits.{default_limits};
ghost use Rattle.bfs_deployment.specs.Limits.{AreRoomy, limit_in, limits_in, limits_said};
ghost use Rattle.bfs_deployment.specs.Outcomes.{Gives};

use crate::error::DeploymentError;
use crate::key::Key;
use crate::tables::{number_or, unknown_in};
use bfs_frames::{Kind, Limits};
use std::alloc::Global;
use toml::{Table, Value};

const LIMIT_KEYS: [Key; 13] = [
    Key::Limit(Kind::Request),
    Key::Limit(Kind::Order),
    Key::Limit(Kind::ViewChange),
    Key::Limit(Kind::NewView),
    Key::Limit(Kind::Reply),
    Key::Limit(Kind::Status),
    Key::Limit(Kind::AskState),
    Key::Limit(Kind::State),
    Key::Limit(Kind::AskReport),
    Key::Limit(Kind::Report),
    Key::Limit(Kind::Call),
    Key::Limit(Kind::Answer),
    Key::Limit(Kind::Log),
];

fn limit_in(table: &Table, kind: Kind) -> Result<u32, DeploymentError>
    ensures value { result ≡ limit_in kind (table_view table.now) }
    ensures least { IfOk result (λ limit. most_of default_limits kind ≤ limit) }
{
    let least = Limits::new().of(kind);
    number_or(least, table, Key::Limit(kind), least, u32::MAX)
}

// whatever other keys there are
fn limits_said(table: &Table) -> Result<Limits, DeploymentError>
    ensures value { result ≡ limits_said (table_view table.now) }
    ensures roomy { IfOk result AreRoomy }
{
    Ok(Limits {
        request: limit_in(table, Kind::Request)?,
        order: limit_in(table, Kind::Order)?,
        view_change: limit_in(table, Kind::ViewChange)?,
        new_view: limit_in(table, Kind::NewView)?,
        reply: limit_in(table, Kind::Reply)?,
        status: limit_in(table, Kind::Status)?,
        ask_state: limit_in(table, Kind::AskState)?,
        state: limit_in(table, Kind::State)?,
        ask_report: limit_in(table, Kind::AskReport)?,
        report: limit_in(table, Kind::Report)?,
        call: limit_in(table, Kind::Call)?,
        answer: limit_in(table, Kind::Answer)?,
        log: limit_in(table, Kind::Log)?,
    })
}

/// The limits that a table says.
pub fn limits_in(alloc: Global, value: &Value) -> Result<Limits, DeploymentError>
    ensures value { Gives (λ limits. limits) result (limits_in (view value.now)) }
    ensures roomy { IfOk result AreRoomy }
{
    let table = value
        .as_table()
        .ok_or(DeploymentError::WrongType(Key::Limits))?;
    match unknown_in(alloc, table, &LIMIT_KEYS)? {
        Some(name) => Err(DeploymentError::UnknownLimit(name)),
        None => limits_said(table),
    }
}
