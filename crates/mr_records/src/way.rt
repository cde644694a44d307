use mr_base::Mask;

/// How a packet went: by which entry, from which vif, and out of which.
#[derive(Clone, Copy, Debug, PartialEq, Eq)]
pub struct Way {
    pub entry: u32,
    pub input: Option<u8>,
    pub outs: Mask,
}
