/// The greatest differences of samples at and near a macroblock's edges for which a filter changes
/// them (RFC 6386, section 15.2).
#[derive(Clone, Copy, Debug, PartialEq, Eq)]
pub struct Limits {
    /// The greatest difference of adjacent samples on one side of an edge, 1 to 63:
    /// `interior_limit`.
    pub interior: u8,
    /// The difference of a sample at an edge and its neighbour above which the edge has high
    /// variance, 0 to 3: `hev_threshold`.
    pub variance: u8,
    /// The limit of the step at an edge between macroblocks: `mbedge_limit`.
    pub macroblock_edge: u8,
    /// The limit of the step at an edge between blocks of one macroblock: `sub_bedge_limit`.
    pub inner_edge: u8,
}

/// The limits at one edge.
#[derive(Clone, Copy)]
pub struct EdgeLimits {
    /// The limit of the step at the edge.
    pub edge: u8,
    /// The greatest difference of adjacent samples on one side of it.
    pub interior: u8,
    /// The difference of a sample at it and its neighbour above which its variance is high.
    pub variance: u8,
}

/// The filter of an edge.
#[derive(Clone, Copy)]
pub enum EdgeFilter {
    /// The simple filter, which reads and writes the fewest samples (RFC 6386, section 15.2).
    Simple,
    /// The normal filter of an edge between blocks of one macroblock (section 15.3).
    Inner,
    /// The normal filter of an edge between macroblocks (section 15.3).
    Macroblock,
}
