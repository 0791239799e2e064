//! What a run's settings are to the program, and the comparison of digests.
use bfs_replay::{
    Failure, Outcome, SettingsError, compare, default_settings, parse_settings, population_of,
};
use bfs_testing::same;
use std::test::Fail;

#[test]
fn a_trace_names_those_of_the_settings(rt: HostRuntime) -> Result<(), Fail> {
    let population = population_of(&default_settings(rt.alloc())?);
    same!(rt; (population.clients(), population.replicas()), (16, 1));
    let settings = parse_settings(rt.alloc(), b"f = 10\nclients = 1024\n")?;
    let population = population_of(&settings);
    same!(rt; (population.clients(), population.replicas()), (1_024, 31));
    Ok(())
}

#[test]
fn bad_settings_end_the_program(rt: HostRuntime) -> Result<(), Fail> {
    let failure = Failure::from(SettingsError::BadSettings);
    same!(rt; failure.status(), 2);
    same!(rt; format!(in rt.alloc(); "{failure}")?.as_str(), "bad configuration");
    same!(rt; Failure::from(SettingsError::Memory), Failure::Memory);
    Ok(())
}

#[test]
fn replicas_with_one_digest_agree(rt: HostRuntime) -> Result<(), Fail> {
    same!(rt; compare(&[]), Outcome::Agree);
    same!(rt; compare(&[[7; 32]]), Outcome::Agree);
    same!(rt; compare(&[[7; 32], [7; 32], [7; 32]]), Outcome::Agree);
    same!(rt; Outcome::Agree.failure(), None);
    Ok(())
}

#[test]
fn replicas_with_two_digests_differ(rt: HostRuntime) -> Result<(), Fail> {
    let mut other = [7; 32];
    other[31] = 8;
    same!(rt; compare(&[[7; 32], other]), Outcome::Differ);
    same!(rt; compare(&[[7; 32], [7; 32], other]), Outcome::Differ);
    let failure = Outcome::Differ.failure().ok_or("no failure")?;
    same!(rt; failure.status(), 1);
    same!(rt; format!(in rt.alloc(); "{failure}")?.as_str(), "replicas differ");
    Ok(())
}
