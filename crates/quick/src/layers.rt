// A layer in scratch.
ghost use Rattle.std.specs.Prelude.{◌≡◌};
ghost use Rattle.image.specs.Rows.{packed, Clean};
ghost use Rattle.planes.specs.Scratch.{Ready, Drawn};
ghost use Rattle.places.specs.Search.{Sized};

// The rows of a packed layer, into scratch.
pub fn read(s: &[u8], out: &mut [u64], w: usize, h: usize)
    requires { Sized w h × (Clean w h s.now × Ready w h out.old) }
    ensures { Drawn w h (packed w s.now) out.new }
{
    let rb = limits::row_bytes(w);
    for r in 0..h {
        planes::rows::put(out, r + 33, words::rows::read(s, r * rb, rb));
    }
}
