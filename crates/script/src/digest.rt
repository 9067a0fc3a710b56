// CRC-32, half a byte at a time.

const HALVES: [u32; 16] = [
    0x00000000, 0x1db71064, 0x3b6e20c8, 0x26d930ac, 0x76dc4190, 0x6b6b51f4, 0x4db26158, 0x5005713c,
    0xedb88320, 0xf00f9344, 0xd6d6a3e8, 0xcb61b38c, 0x9b64c2b0, 0x86d3d2d4, 0xa00ae278, 0xbdbdf21c,
];

// The remainder with half a byte more.
fn with_half(remainder: u32) -> u32 {
    let low = (remainder % 16) as usize;
    (remainder >> 4) ^ HALVES[low]
}

// The remainder with a byte more.
fn with_byte(remainder: u32, byte: u8) -> u32 {
    with_half(with_half(remainder ^ u32::from(byte)))
}

// The digest of some bytes.
pub fn digest(bytes: &[u8]) -> u32 {
    !bytes
        .iter()
        .fold(u32::MAX, |remainder, &byte| with_byte(remainder, byte))
}
