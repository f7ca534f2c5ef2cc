// Big-endian numbers in a file, single and in runs, and runs of bytes.
ghost use Rattle.std.specs.Prelude.{◌≡◌, ◌+◌, ◌*◌, ◌≤◌, ◌<◌, length};
ghost use Rattle.rules.specs.Jobs as jobs;
ghost use Rattle.rules.specs.Jobs.{be16, be32, over};

fn wide(x: u8) -> u32
    ensures { (result ≡ x) × (result < 256) }
{
    x as u32
}

// A number that is known to have 16 bits.
fn narrow(x: u32) -> u16
    requires { x < 65536 }
    ensures { result ≡ x }
{
    x as u16
}

// The number of 16 bits at `at`.
pub fn get16(f: &[u8], at: usize) -> u16
    requires { at + 2 ≤ length f.now }
    ensures { (result ≡ be16 f.now at) × (result < 65536) }
{
    narrow(wide(f[at]) * 256 + wide(f[at + 1]))
}

// The number of 32 bits at `at`.
pub fn get32(f: &[u8], at: usize) -> u32
    requires { at + 4 ≤ length f.now }
    ensures { (result ≡ be32 f.now at) × (result < 4294967296) }
{
    wide(f[at]) * 16777216 + wide(f[at + 1]) * 65536 + wide(f[at + 2]) * 256 + wide(f[at + 3])
}

// Reads as many numbers of 16 bits from `at` on as `out` holds.
pub fn get16s(f: &[u8], at: usize, out: &mut [u16])
    requires { at + length out.old * 2 ≤ length f.now }
    ensures { out.new ≡ jobs.get16s f.now at (length out.old) }
{
    let mut i = 0;
    let mut j = at;
    while i < out.len() {
        out[i] = get16(f, j);
        i += 1;
        j += 2;
    }
}

// Writes a number of 16 bits at `at`.
pub fn put16(d: &mut [u8], at: usize, n: usize)
    requires { at + 2 ≤ length d.old }
    ensures { d.new ≡ over d.old at (jobs.put16 n) }
{
    d[at] = (n / 256 % 256) as u8;
    d[at + 1] = (n % 256) as u8;
}

// Writes a number of 32 bits at `at`.
pub fn put32(d: &mut [u8], at: usize, n: usize)
    requires { at + 4 ≤ length d.old }
    ensures { d.new ≡ over d.old at (jobs.put32 n) }
{
    d[at] = (n / 16777216 % 256) as u8;
    d[at + 1] = (n / 65536 % 256) as u8;
    d[at + 2] = (n / 256 % 256) as u8;
    d[at + 3] = (n % 256) as u8;
}

// Fills `d` with the numbers of `src`.
pub fn put16s(d: &mut [u8], src: &[u16])
    requires { length d.old ≡ length src.now * 2 }
    ensures { d.new ≡ jobs.put16s src.now }
{
    let mut i = 0;
    let mut j = 0;
    while i < src.len() {
        let v = src[i];
        d[j] = (v / 256 % 256) as u8;
        d[j + 1] = (v % 256) as u8;
        i += 1;
        j += 2;
    }
}

// Fills `d` with the bytes of `src`.
pub fn put_bytes(d: &mut [u8], src: &[u8])
    requires { length d.old ≡ length src.now }
    ensures { d.new ≡ src.now }
{
    let mut i = 0;
    while i < src.len() {
        d[i] = src[i];
        i += 1;
    }
}
