use state_cache::Capacity;
use vp8_tables::Tables;

/// The settings of a session.
#[derive(Drop)]
pub struct Settings {
    /// The long tables that packets are decoded with.
    pub tables: Tables,
    /// The most decoded states that are cached, 1 to 4,096, and the most bytes of their pictures.
    pub capacity: Capacity,
}
