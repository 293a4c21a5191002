// Checksums.
use printing::size;

// A checksum with one number more: order counts, and every sum stays below 65,521.
pub(crate) fn mix(sum: u64, x: u64) -> u64 {
    (31 * (sum % 65521) + x % 65521) % 65521
}

// As `mix`, with the sign as a number of its own.
pub(crate) fn mix_signed(sum: u64, z: i32) -> u64 {
    mix(mix(sum, u64::from(z < 0)), size(z))
}
