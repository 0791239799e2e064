//! The public document of a cluster: how many faults it tolerates, who its replicas and its relay are, by which keys clients and replicas sign, and how long and how much
//! each waits for and takes.
#![tactic(auto)]

mod deployment;
mod document;
mod error;
mod key;
mod limits;
mod signers;
mod tables;
mod text;

pub use deployment::{DEFAULT_PATIENCE, Deployment, MOST_PATIENCE};
pub use document::parse_deployment;
pub use error::DeploymentError;
pub use key::Key;
pub use text::Text;
