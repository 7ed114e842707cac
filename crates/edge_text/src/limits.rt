/// How many bytes a text may have.
pub const MOST_BYTES: usize = 1_073_741_824;
/// How many bytes a name may have.
pub const MOST_NAME: usize = 65_536;
/// How many different names a text may have.
pub const MOST_NODES: usize = 8_388_608;
/// How many edges a text may have. Equal ones count each.
pub const MOST_EDGES: usize = 33_554_432;
