// The header of a table, with Control's flags.
#[derive(Clone, Copy)]
pub struct Header {
    pub oem_id: [u8; 6],
    pub oem_table_id: [u8; 8],
    pub flags: u8,
}

impl Header {
    // `iBFT`, little endian.
    pub const SIGNATURE: u32 = 0x54464269;
}
