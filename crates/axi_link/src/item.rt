/// One transfer of an AXI4-Stream channel.
#[derive(Clone, Copy, PartialEq, Eq, Debug)]
pub struct Item {
    /// The data, TDATA.
    pub word: u32,
    /// The control bit, TLAST.
    pub control: bool,
}
