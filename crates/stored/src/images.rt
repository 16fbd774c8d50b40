// The three images, each the start of a buffer, and what sets them up between calls.

// One of the three images, which lines number 0 to 2.
#[derive(Clone, Copy, Debug, PartialEq, Eq)]
pub enum Image {
    A,
    B,
    C,
}

// The image of a number.
pub(crate) fn image_of(number: u64) -> Option<Image> {
    match number {
        0 => Some(Image::A),
        1 => Some(Image::B),
        2 => Some(Image::C),
        _ => None,
    }
}

// What stands from line to line: how long each image is, and the change count that pages bring.
#[derive(Clone, Copy)]
pub struct State {
    pub a: usize,
    pub b: usize,
    pub c: usize,
    pub changes: u64,
}

impl State {
    // The length of an image.
    pub fn length_of(self, image: Image) -> usize {
        match image {
            Image::A => self.a,
            Image::B => self.b,
            Image::C => self.c,
        }
    }

    // The state, once an image has another length.
    pub fn with_length(self, image: Image, n: usize) -> State {
        match image {
            Image::A => State { a: n, ..self },
            Image::B => State { b: n, ..self },
            Image::C => State { c: n, ..self },
        }
    }
}

// The image of n bytes at the start of a buffer; all of it if it has fewer.
fn started(buffer: &[u8], n: usize) -> &[u8] {
    buffer.get(..n).unwrap_or(buffer)
}

// An image, one of the two beside the image `target`, whose buffers are `lower` and `upper` in their order.
pub fn picked<'a>(
    lower: &'a [u8],
    upper: &'a [u8],
    state: State,
    image: Image,
    target: Image,
) -> &'a [u8] {
    let n = state.length_of(image);
    match (image, target) {
        (Image::C, _) => started(upper, n),
        (Image::B, Image::C) => started(upper, n),
        _ => started(lower, n),
    }
}

// The image becomes q zero bytes, if its buffer has room for them; its length then.
pub fn zeroed(buffer: &mut [u8], n: usize, q: usize) -> usize {
    if buffer.len() < q {
        return n;
    }
    buffer[..q].fill(0);
    q
}

// The image becomes a copy of `from`, if its buffer has room for it; its length then.
pub fn copied(from: &[u8], buffer: &mut [u8], n: usize) -> usize {
    let q = from.len();
    if buffer.len() < q {
        return n;
    }
    buffer[..q].copy_from_slice(from);
    q
}

// Eight bytes from `at` become `word`, little-endian, if they end within the image.
pub fn poke(image: &mut [u8], at: usize, word: u64) {
    if image.len() < 8 {
        return;
    }
    if image.len() - 8 < at {
        return;
    }
    image[at..at + 8].copy_from_slice(&word.to_le_bytes());
}
