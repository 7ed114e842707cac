/// A node and one of its successors.
#[derive(Clone, Copy)]
pub struct Edge {
    pub from: u32,
    pub to: u32,
}
