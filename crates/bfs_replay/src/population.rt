ghost use Rattle.std.specs.Prelude.{◌≡◌};
ghost use Rattle.bfs_settings.specs.Settings.{replicas_for};

use bfs_settings::Settings;
use bfs_trace::Population;

/// Whom a trace may name under the settings: their clients, and their replicas.
pub fn population_of(settings: &Settings) -> Population
    ensures { result ≡ record { clients = settings.now.clients; replicas = replicas_for settings.now.f } }
{
    match Population::new(settings.clients(), settings.replicas()) {
        Some(population) => population,
        None => unreachable!(),
    }
}
