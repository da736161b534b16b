// What programs read, and the buffers for it. `main` takes `Stdin` and `Stdout` of its runtime and passes them down.
ghost use Rattle.std.specs.Prelude.{◌≡◌, ◌≤◌, length, replicate};

use std::io::{Read, Stdin};

// N zeros.
pub fn zeros<const N: usize>() -> [u8; N]
    ensures len { N ≡ length result }
    ensures zero { result ≡ replicate N 0 }
{
    [0; N]
}

// Reads until all is filled, the input ends or a read fails. The answer is how many bytes came, which stand at the front.
pub fn read_full(input: Stdin, s: &mut [u8]) -> usize
    ensures { result ≤ length s.new }
{
    let mut file = input;
    let mut done = 0;
    while done < s.len() {
        let n = file.read(&mut s[done..]).unwrap_or(0);
        if n == 0 {
            break;
        }
        done += n;
    }
    done
}
