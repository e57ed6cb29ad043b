// How a program reads a whole file on standard input, and answers it.
ghost use Rattle.std.specs.Prelude.{◌≡◌, ◌+◌, ◌<◌, ◌≤◌, length, take, drop, IfOk};
ghost use Rattle.std.specs.Io.KnownBytes.{Consumes, IsAtEnd};

use std::convert::AsSlice;
use std::io;
use std::io::Read;

// Reads until the buffer is full or the input ends, and says how many bytes it put at the buffer's start.
pub fn read_full<R: Read>(input: &mut R, buf: &mut [u8]) -> io::Result<usize>
    ensures bound { IfOk result (λ n. n ≤ length buf.new) }
    ensures bytes { IfOk result (λ n. Consumes (R.remaining input.old) (R.remaining input.new) (take n buf.new)) }
    ensures end { IfOk result (λ n. n < length buf.new → IsAtEnd (R.remaining input.new)) }
{
    let mut done = 0;
    // an iteration for each read, which says how far the next one starts: no `for` counts that
    while done < buf.len() {
        let n = read_at(input, buf, done)?;
        if n == 0 {
            return Ok(done);
        }
        done += n;
    }
    Ok(done)
}

// One read, behind the first `at` bytes of the buffer, which stay.
fn read_at<R: Read>(input: &mut R, buf: &mut [u8], at: usize) -> io::Result<usize>
    requires { at < length buf.old }
    ensures front { take at buf.new ≡ take at buf.old }
    ensures fits { IfOk result (λ n. at + n ≤ length buf.new) }
    ensures bytes { IfOk result (λ n. Consumes (R.remaining input.old) (R.remaining input.new) (take n (drop at buf.new))) }
    ensures end { IfOk result (λ n. n ≡ 0 → IsAtEnd (R.remaining input.new)) }
{
    input.read(&mut buf[at..])
}

// A whole program: prints what `f` makes of standard input, which is the front of `out`, as long as `f` says.
pub fn answer_input<T: AsSlice<u8>, F: FnOnce(&[u8], &mut T) -> usize>(
    rt: &HostRuntime,
    out: &mut T,
    f: F,
) -> io::Result<()>
    requires callable { F.IsAlwaysCallable f }
    requires within { (input : _) (lent : _) (n : _) (after : _) → F.post f input lent n after → n ≤ length (T.items after.now) }
{
    // one byte more than the longest input, so that a longer one is seen to be longer
    let mut input = [0u8; 65537];
    let n = read_full(&mut rt.stdin(), &mut input)?;
    let m = f(&input[..n], out);
    rt.write_all(&out.as_slice()[..m])
}
