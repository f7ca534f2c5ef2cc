// What is amiss at a pixel: a ring that it may not carry, or nothing that holds it.
ghost use Rattle.std.specs.Prelude.{◌≡◌, Bool, ℕ, ◌+◌, ◌*◌, ◌<◌, length, get_or};
ghost use Rattle.rules.specs.Planning.{near};
ghost use Rattle.image.specs.Rows.{packed};
ghost use Rattle.words.specs.Words.{word_bit};
ghost use Rattle.places.specs.Search.{bad_here, unheld_here, Sized};
ghost use Rattle.chains.specs.Amiss.{amiss_here, Planes};

use crate::leaning::{pixel, touches};

// Whether the ring of the pixel is bad. The row's near pixels are those of `close`.
#[tactic(auto, unfolding(places::specs::Search::bad_here, rules::specs::Planning::fits, rules::specs::Planning::reached, rules::specs::Planning::shadow, crate::specs::Amiss::lender))]
fn bad(
    low: &[u8],
    up: &[u8],
    rings: &[u16],
    close: &[u64],
    w: usize,
    h: usize,
    r: usize,
    c: usize,
) -> bool
    requires fits { Sized w h × ((r < h) × (c < w)) }
    requires planes { Planes w h low.now up.now low.now up.now rings.now × (length close.now ≡ 4) }
    ensures { (q : ℕ) → word_bit close.now c ≡ near w h q (packed w low.now) (r * w + c) →
        result ≡ bad_here w h q (packed w low.now) (packed w up.now) (λ o. get_or rings.now o 0) (r * w + c) }
{
    let k = rings[r * w + c];
    k != 0
        && !(pixel(up, w, h, r, c)
            && !pixel(low, w, h, r, c)
            && leans::bits::column_at(close, c)
            && touches(low, up, rings, w, h, r, c, k))
}

// Whether the pixel is unheld.
#[tactic(auto, unfolding(places::specs::Search::unheld_here))]
fn unheld(
    low: &[u8],
    up: &[u8],
    below: &[u8],
    above: &[u8],
    rings: &[u16],
    w: usize,
    h: usize,
    r: usize,
    c: usize,
) -> bool
    requires fits { Sized w h × ((r < h) × (c < w)) }
    requires planes { Planes w h low.now up.now below.now above.now rings.now }
    ensures { result ≡ unheld_here (packed w low.now) (packed w up.now) (packed w below.now) (packed w above.now) (λ o. get_or rings.now o 0)
        (r * w + c) }
{
    rings[r * w + c] == 0
        && !(pixel(low, w, h, r, c) || pixel(below, w, h, r, c))
        && (pixel(up, w, h, r, c) || pixel(above, w, h, r, c))
}

// Whether the ring is bad, where rings are looked for, and else whether the pixel is unheld.
pub fn amiss(
    low: &[u8],
    up: &[u8],
    below: &[u8],
    above: &[u8],
    rings: &[u16],
    close: &[u64],
    w: usize,
    h: usize,
    r: usize,
    c: usize,
    ringed: bool,
) -> bool
    requires fits { Sized w h × ((r < h) × (c < w)) }
    requires planes { Planes w h low.now up.now below.now above.now rings.now × (length close.now ≡ 4) }
    ensures { (q : ℕ) → word_bit close.now c ≡ near w h q (packed w low.now) (r * w + c) →
        result ≡ amiss_here ringed w h q low.now up.now below.now above.now rings.now (r * w + c) }
{
    if ringed {
        bad(low, up, rings, close, w, h, r, c)
    } else {
        unheld(low, up, below, above, rings, w, h, r, c)
    }
}
