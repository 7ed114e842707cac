/// An expanded node: the node with its successors.
#[derive(Drop)]
pub struct Opening {
    pub node: u32,
    pub succs: Vec<u32>,
}
