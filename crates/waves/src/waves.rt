// Whole waves, over the rows that `ahead` leads to.
ghost use Rattle.std.specs.Prelude.{◌≡◌, true, false, ℕ, ◌+◌, ◌*◌, ◌<◌, ◌≤◌};
ghost use Rattle.words.specs.Words.{Ones, word_bit};
ghost use Rattle.planes.specs.Scratch.{Sizes, Ready};
ghost use Rattle.waves.specs.Rows.{Aheads, Room, Waving, Still};
ghost use Rattle.waves.specs.Fronts.{WavePlanes, WavesMade};

fn one(b: bool) -> usize
    ensures { (result ≤ 1) × (result ≡ 0 → b ≡ false) }
{
    if b { 1 } else { 0 }
}

// A wave: what is left and touches `from` gets ring v. Answers how many rows have new pixels, and 0 where no wave goes on.
pub fn wave(
    ring: &mut [u16],
    from: &[u64],
    to: &mut [u64],
    left: &mut [u64],
    got: &mut [u64],
    ahead: &[usize],
    w: usize,
    h: usize,
    v: u16,
    ones: &[u16],
) -> usize
    requires planes { WavePlanes w h ahead.now from.now left.old got.old ring.old }
    requires room { Room w h ahead.now to.old × Ones ones.now }
    ensures planes { WavePlanes w h ahead.now to.new left.new got.new ring.new }
    ensures room { Room w h ahead.now to.new }
    ensures waving { Waving w h v from.now to.new left.old left.new got.old got.new ring.old ring.new }
    ensures still { result ≡ 0 → Still to.new left.new }
{
    let mut rows: usize = 0;
    let mut more = false;
    let mut y = ahead[0];
    while y < h {
        let gone = crate::rows::wave_row(ring, from, to, left, got, w, y, v, ones);
        rows += one(gone.new);
        more = numbers::either(more, gone.more);
        y = ahead[y + 1];
    }
    if more {
        return rows;
    }
    0
}

// The rows of p into `to`.
pub fn copy(p: &[u64], to: &mut [u64], ahead: &[usize], w: usize, h: usize)
    requires { Sizes w h × Aheads h ahead.now × Room w h ahead.now p.now × Room w h ahead.now to.old }
    ensures { (j : ℕ) → word_bit to.new j ≡ word_bit p.now j }
{
    let mut y = ahead[0];
    while y < h {
        planes::rows::put(to, y + 33, planes::rows::row(p, y + 33));
        y = ahead[y + 1];
    }
}

// Waves from wave k on, up to t, as long as each has new pixels in at least `least` rows. Answers the number of the last one, and 0
// where no wave goes on.
pub fn waves(
    ring: &mut [u16],
    front: &mut [u64],
    next: &mut [u64],
    left: &mut [u64],
    got: &mut [u64],
    ahead: &[usize],
    w: usize,
    h: usize,
    k: usize,
    t: usize,
    least: usize,
    ones: &[u16],
) -> usize
    requires planes { WavePlanes w h ahead.now front.old left.old got.old ring.old }
    requires room { Room w h ahead.now front.old × Room w h ahead.now next.old }
    requires steps { (0 < k) × (k ≤ t) × (t < 65536) × Ones ones.now }
    ensures planes { WavePlanes w h ahead.now front.new left.new got.new ring.new }
    ensures room { Room w h ahead.now front.new × Room w h ahead.now next.new }
    ensures made { WavesMade w h k t result front.old front.new left.old left.new got.old got.new ring.old
        ring.new }
    ensures most { result ≤ t }
{
    let mut n = k;
    while n + 1 < t {
        let a = wave(
            ring,
            front,
            next,
            left,
            got,
            ahead,
            w,
            h,
            (n + 1) as u16,
            ones,
        );
        if a == 0 {
            return 0;
        }
        if a < least {
            copy(next, front, ahead, w, h);
            return n + 1;
        }
        let b = wave(
            ring,
            next,
            front,
            left,
            got,
            ahead,
            w,
            h,
            (n + 2) as u16,
            ones,
        );
        if b == 0 {
            return 0;
        }
        n += 2;
        if b < least {
            return n;
        }
    }
    n
}
