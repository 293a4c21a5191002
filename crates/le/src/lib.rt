// Little-endian numbers and runs of bytes in a slice, read and written. Every function is total: a byte past the end
// reads 0, and what does not fit is not written.
#![tactic(auto)]

ghost use Rattle.std.specs.Prelude.{◌≡◌, ◌+◌, ◌*◌, ◌<◌, leb, length};
ghost use Rattle.le.specs.Le.{le, bytes, part, stored, run, int, short};

// The bytes at a place.
pub fn bytes_at<const N: usize>(s: &[u8], at: usize) -> [u8; N]
    ensures { result ≡ part N s.now at }
{
    match s.get(at..) {
        Some(tail) => match tail.first_chunk() {
            Some(chunk) => *chunk,
            None => padded(tail),
        },
        None => [0; N],
    }
}

// Fewer bytes than are asked for, and zeros behind them.
fn padded<const N: usize>(tail: &[u8]) -> [u8; N]
    requires { length tail.now < N }
    ensures { result ≡ part N tail.now 0 }
{
    let mut bytes = [0; N];
    bytes[..tail.len()].copy_from_slice(tail);
    bytes
}

// A function for each width, here and below: std has these conversions on each type, and in no trait.
pub fn u16_at(s: &[u8], at: usize) -> u16
    ensures { result ≡ le 2 s.now at }
{
    u16::from_le_bytes(bytes_at(s, at))
}

pub fn u32_at(s: &[u8], at: usize) -> u32
    ensures { result ≡ le 4 s.now at }
{
    u32::from_le_bytes(bytes_at(s, at))
}

pub fn u64_at(s: &[u8], at: usize) -> u64
    ensures { result ≡ le 8 s.now at }
{
    u64::from_le_bytes(bytes_at(s, at))
}

// The signed number whose bits are x.
pub fn i32_of(x: u32) -> i32
    ensures { result ≡ int x }
{
    u32::cast_signed(x)
}

pub fn i16_of(x: u16) -> i16
    ensures { result ≡ short x }
{
    u16::cast_signed(x)
}

// Whether n bytes at a place lie within len.
pub fn has(len: usize, at: usize, n: usize) -> bool
    ensures { result ≡ leb (at + n) len }
{
    if len < at {
        return false;
    }
    n <= len - at
}

// Puts all of src into room at a place.
pub fn put(room: &mut [u8], at: usize, src: &[u8])
    ensures { room.new ≡ stored (length src.now) room.old at src.now }
{
    if has(room.len(), at, src.len()) {
        let end = at + src.len();
        room[at..end].copy_from_slice(src);
    }
}

// Puts an array into room at a place. Its length stands in its type.
pub fn put_bytes<const N: usize>(room: &mut [u8], at: usize, src: [u8; N])
    ensures stored { room.new ≡ stored N room.old at src.entry }
    ensures len { length src.entry ≡ N }
{
    put(room, at, &src);
}

pub fn put_u16(room: &mut [u8], at: usize, x: u16)
    ensures { room.new ≡ stored 2 room.old at (bytes 2 x) }
{
    put_bytes(room, at, u16::to_le_bytes(x));
}

pub fn put_u32(room: &mut [u8], at: usize, x: u32)
    ensures { room.new ≡ stored 4 room.old at (bytes 4 x) }
{
    put_bytes(room, at, u32::to_le_bytes(x));
}

pub fn put_u64(room: &mut [u8], at: usize, x: u64)
    ensures { room.new ≡ stored 8 room.old at (bytes 8 x) }
{
    put_bytes(room, at, u64::to_le_bytes(x));
}

// Puts the numbers of xs into room from a place on, 2 bytes each: all of them, or none.
pub fn put_halves(room: &mut [u8], at: usize, xs: &[u16])
    ensures { room.new ≡ stored (2 * length xs.now) room.old at (run (bytes 2) xs.now) }
{
    if has(room.len(), at, 2 * xs.len()) {
        for (i, x) in xs.iter().enumerate() {
            put_u16(room, at + 2 * i, *x);
        }
    }
}

// The same, 4 bytes each.
pub fn put_words(room: &mut [u8], at: usize, xs: &[u32])
    ensures { room.new ≡ stored (4 * length xs.now) room.old at (run (bytes 4) xs.now) }
{
    if has(room.len(), at, 4 * xs.len()) {
        for (i, x) in xs.iter().enumerate() {
            put_u32(room, at + 4 * i, *x);
        }
    }
}
