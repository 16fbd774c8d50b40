// The checksum of stored bytes: FNV-1a with 64 bits.

ghost use Rattle.std.specs.Prelude.{◌≡◌};
ghost use Rattle.stored.specs.Checksums.{mix, checksum};

// The checksum of what a call on one image was lent.
pub fn of_image(image: &[u8]) -> u64 {
    of_bytes(14695981039346656037, image)
}

// The same for an occupancy page, or for a move with its target.
pub fn of_output(image: &[u8], out: &[u8]) -> u64 {
    of_bytes(of_image(image), out)
}

// The same for a page, a tail or a row.
pub fn of_page(image: &[u8], out: &[u64]) -> u64 {
    of_entries(of_image(image), out)
}

// The same for a merge.
pub fn of_merge<'a>(first: &'a [u8], second: &'a [u8], target: &[u8]) -> u64 {
    of_bytes(of_bytes(of_image(first), second), target)
}

// One byte more: (sum xor byte) × (2^40 + 435), modulo 2^64.
fn mixed(sum: u64, byte: u8) -> u64
    ensures { result ≡ mix sum byte }
{
    (sum ^ (byte as u64)).wrapping_mul(1099511628211)
}

// All bytes of a slice more.
fn of_bytes(sum: u64, bytes: &[u8]) -> u64
    ensures { result ≡ checksum sum bytes.now }
{
    let mut s = sum;
    for &byte in bytes {
        s = mixed(s, byte);
    }
    s
}

// All entries more, each as eight bytes, little-endian.
fn of_entries(sum: u64, entries: &[u64]) -> u64 {
    let mut s = sum;
    for entry in entries {
        s = of_bytes(s, &entry.to_le_bytes());
    }
    s
}
