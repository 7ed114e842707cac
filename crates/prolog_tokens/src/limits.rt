/// The greatest length of a text in bytes.
pub const MOST_BYTES: u32 = 8_388_608;
