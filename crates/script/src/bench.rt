use crate::named_link::NamedLink;
use kit::loading::Loading;
use kit::running::Running;

/// What stands on the bench: nothing, or a kit that a record made, before its start or after it.
#[derive(Drop)]
pub enum Bench {
    NoKit,
    Loading(Loading<NamedLink>),
    Running(Running<NamedLink>),
}
