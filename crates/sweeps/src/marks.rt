// Marks: single bits of a plane.
ghost use Rattle.std.specs.Prelude.{◌≡◌, ◌+◌, ◌*◌, ◌<◌, true, length, slice_index};
ghost use Rattle.words.specs.Words.{word_bit};
ghost use Rattle.sweeps.specs.Marks.{Cleared, Lit};

// Switches bit k of word i off.
pub fn clear_bit(l: &mut [u64], i: usize, k: usize)
    requires { (i < length l.old) × (k < 64) }
    ensures cleared { Cleared (i * 64 + k) l.new l.old }
    ensures falls { word_bit l.old (i * 64 + k) ≡ true → slice_index l.new i < slice_index l.old i }
{
    l[i] = l[i] & !words::single::bit(k);
}

// Switches bit k of word i on.
pub fn set_bit(l: &mut [u64], i: usize, k: usize)
    requires { (i < length l.old) × (k < 64) }
    ensures { Lit (i * 64 + k) l.new l.old }
{
    l[i] = l[i] | words::single::bit(k);
}
