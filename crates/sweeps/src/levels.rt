// Levels: the ring of a pixel as a number, 65,536 for none.
ghost use Rattle.std.specs.Prelude.{◌≡◌, ◌+◌, ◌<◌, ◌≤◌, true, false, length, slice_index};
ghost use Rattle.sweeps.specs.Rings.{level};

fn wide(v: u16) -> u32
    ensures { result ≡ v }
{
    v as u32
}

// A ring's number, and 65536 for none: one less than 0 is the largest number, so that nothing is asked.
fn level_of(v: u16) -> u32
    ensures { (result ≡ level v) × (result ≤ 65536) }
{
    wide(std::num::wrapping_sub_u16(v, 1)) + 1
}

// Whether the ring of pixel p is larger than v + 1, or none.
pub fn above(ring: &[u16], p: usize, v: u16) -> bool
    requires { p < length ring.now }
    ensures { (result ≡ true → (v + 1 < level (slice_index ring.now p)) × (v + 1 < 65536)) × (result ≡ false → level (slice_index ring.now p) ≤ v + 1) }
{
    wide(v) + 1 < level_of(ring[p])
}
