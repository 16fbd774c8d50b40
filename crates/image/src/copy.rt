// Bytes copied into a slice of as many, by a loop: the library's `copy_from_slice` takes longer where an image is larger than the caches.

ghost use Rattle.std.specs.Prelude.{◌≡◌, length};

pub fn copy_bytes(from: &[u8], to: &mut [u8])
    requires { length to.old ≡ length from.now }
    ensures { to.new ≡ from.now }
{
    for i in 0..from.len() {
        to[i] = from[i];
    }
}
