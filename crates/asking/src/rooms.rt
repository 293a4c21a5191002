// The rooms of a list, numbers that are unpacked from bytes, and a room that is shown in one number.
ghost use Rattle.std.specs.Prelude.{map, ◌≡◌, ℕ, ◌*◌, ◌^◌, ◌<◌, length, slice_index_or};
ghost use Rattle.std.specs.Int.{w32};
ghost use Rattle.std.proofs.Common.{of_z};
ghost use Rattle.le.specs.Le.{le, items};
ghost use Rattle.printing.specs.Sum.{sum_from};

use printing::mixed;

// What a list asks, and where its answers go.
#[derive(Drop)]
pub(crate) struct ListRooms<'a> {
    pub(crate) radials: &'a mut [usize],
    pub(crate) types: &'a mut [u32],
    pub(crate) gates: &'a mut [usize],
    pub(crate) kinds: &'a mut [u8],
    pub(crate) hundredths: &'a mut [i32],
}

// Each entry of a room as it is read at its place, entries of so many bytes being one after the other.
fn unpack<T: Copy, F: Fn(usize) -> T>(room: &mut [T], size: usize, read: F)
    requires places { size * length room.old < 2 ^ 64 }
    requires callable { F.IsAlwaysCallable read }
    ensures { (k : ℕ) (d : T) → k < length room.old → F.post read (size * k) (slice_index_or room.new k d) }
{
    for (i, entry) in room.iter_mut().enumerate() {
        *entry = read(size * i);
    }
}

// Two functions over the one, so that the numbers are promised: a caller that gave the width would promise nothing of them.
// The numbers of four bytes each, one after the other.
pub(crate) fn unpack_fours(bytes: &[u8], room: &mut [u32])
    ensures { room.new ≡ items (le 4) 4 (length room.old) bytes.now 0 }
{
    unpack(room, 4, |at| le::u32_at(bytes, at));
}

// The numbers of eight bytes each, likewise.
pub(crate) fn unpack_eights(bytes: &[u8], room: &mut [usize])
    ensures { room.new ≡ items (le 8) 8 (length room.old) bytes.now 0 }
{
    unpack(room, 8, |at| le::u64_at(bytes, at) as usize);
}

// The bits of a room's numbers in one number, as `printing::sum` shows bytes.
pub(crate) fn sum_signed(s: &[i32]) -> u32
    ensures { result ≡ sum_from 0 (map (of_z w32) s.now) }
{
    s.iter().fold(0, |n, z| mixed(n, z.cast_unsigned()))
}
