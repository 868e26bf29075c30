use crate::identifiers::Identifiers;

/// The link of an agent that is up.
#[derive(Drop)]
pub(crate) struct Link {
    pub(crate) number: u64,
    pub(crate) draining: bool,
    pub(crate) identifiers: Identifiers,
}
