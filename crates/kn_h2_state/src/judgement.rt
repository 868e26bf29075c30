use kn_hpack::Headers;

/// What is found of a frame before it has its effect.
#[derive(Drop)]
pub enum Judgement {
    /// It breaks a rule: the connection fails with this code.
    Broken { code: u32 },
    /// It breaks none, and ends no header block.
    Kept,
    /// It breaks none, and ends a header block, which stands for these fields. The stream ends with it, or not.
    EndsBlock { ends: bool, fields: Headers },
}
