// Roots from a table, and how far a disc runs to each side in a row.
#![tactic(auto)]

mod table;

ghost use Rattle.std.specs.Prelude.{◌≡◌, ◌+◌, ◌-◌, ◌*◌, ◌<◌, ◌≤◌, length};
ghost use Rattle.rules.specs.Reach as rule;
ghost use Rattle.laws.specs.Discs.{Roots, Halves};

use rules::{Bound, Pixels};

// The root of m, from the table.
pub fn root(m: usize) -> usize
    requires { m ≤ rule.most_bound }
    ensures { result ≡ rule.root m }
{
    numbers::wide(table::ROOTS[m])
}

// How far the disc with squared radius q runs to each side in a row d away from its middle; roots is the table.
fn half_width(q: Bound, d: Pixels, roots: &[u8]) -> Pixels
    requires { (d.0 < rule.most_rows) × ((d.0 * d.0 ≤ q.0) × (q.0 ≤ rule.most_bound)) × Roots roots.now }
    ensures { result.0 ≡ rule.half_width q.0 d.0 }
{
    let k = d.0;
    Pixels(numbers::wide(roots[q.0 - k * k]))
}

// The half-widths of a whole disc; roots is the table, which is lent so that it is laid out once and not for each row.
fn all_halves(q: usize, out: &mut [usize], roots: &[u8])
    requires { (q ≤ rule.most_bound) × (length out.old ≡ rule.most_rows) × Roots roots.now }
    ensures { Halves q out.new }
{
    let mut d: usize = 0;
    while d * d <= q {
        let half = half_width(Bound(q), Pixels(d), roots);
        out[d] = half.0;
        d += 1;
    }
}

// The half-widths of the disc with squared radius q, from its middle row on.
pub fn halves(q: usize, out: &mut [usize])
    requires { (q ≤ rule.most_bound) × (length out.old ≡ rule.most_rows) }
    ensures { Halves q out.new }
{
    all_halves(q, out, &table::ROOTS);
}
