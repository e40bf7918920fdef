// What decoding knows before a packet of a store.
use macroblock_lists::Knowledge;

/// What decoding knows before the packet at an index.
#[derive(Drop)]
pub(crate) struct Reached {
    pub at: usize,
    pub progress: Knowledge,
}
