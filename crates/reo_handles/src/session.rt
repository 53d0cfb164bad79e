//! What C has open.
use reo_connector::Connector;
use reo_rounds::Done;

/// A connector, and what its last round was, if it made one.
#[derive(Drop)]
pub struct Session {
    pub connector: Connector,
    pub done: Option<Done>,
}
