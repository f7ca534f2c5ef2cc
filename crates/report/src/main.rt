// The report program: reads a job from standard input, plans it afresh and prints what was planned.
#![tactic(auto)]

ghost use Rattle.std.specs.Prelude.{◌≤◌, IfOk, length};

use std::io;
use std::io::Read;

// Reads until `buf` is full or the input ends, and returns how many bytes it put at the start of `buf`.
fn read_full(input: &mut impl Read, buf: &mut [u8]) -> io::Result<usize>
    ensures { IfOk result (λ n. n ≤ length buf.new) }
{
    let mut done = 0;
    while done < buf.len() {
        let n = input.read(&mut buf[done..])?;
        if n == 0 {
            break;
        }
        done += n;
    }
    Ok(done)
}

fn main(rt: HostRuntime) -> io::Result<()> {
    let mut input = rt.stdin();
    let mut file = [0u8; 65536];
    let n = read_full(&mut input, &mut file)?;
    let mut rest = [0u8; 1];
    let more = read_full(&mut input, &mut rest)? != 0;
    let mut out = [0u8; 16384];
    let end = lines::report(&file[..n], more, &mut out);
    rt.stdout().write_all(&out[..end])
}
