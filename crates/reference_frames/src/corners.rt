/// The place of a macroblock among those of a frame: column `mx` of row `my`.
#[derive(Clone, Copy)]
pub(crate) struct MacroblockPlace {
    pub(crate) mx: usize,
    pub(crate) my: usize,
}

/// The place of a macroblock in the samples of a plane, whose rows start `across` samples apart.
#[derive(Clone, Copy)]
pub(crate) struct MacroblockCorner {
    pub(crate) across: usize,
    pub(crate) mx: usize,
    pub(crate) my: usize,
}
