//! How much a connector unfolds to.

/// How many uses a connector unfolds to, how deep they are nested, and how many channels: each at
/// most one more than what is allowed (65,536 uses, 64 deep, 4,096 channels).
#[derive(Clone, Copy)]
pub struct Sizes {
    pub uses: u32,
    pub depth: u32,
    pub placed: u32,
}
