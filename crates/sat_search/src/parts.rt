use crate::guide::Guide;
use sat_engine::{Store, Trail, Watches};
use sat_index::Index;

/// What the search works on.
#[derive(Drop)]
pub struct Parts {
    pub store: Store,
    pub trail: Trail,
    pub watches: Watches,
    pub index: Index,
    pub marks: Vec<bool>,
    pub flags: Vec<bool>,
    pub start: usize,
    pub guide: Guide,
}
