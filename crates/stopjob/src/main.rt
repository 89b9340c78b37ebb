// Reads a job on standard input, runs its picks, and writes the image of what they leave to standard output. Of a job that is refused nothing is written there,
// and `refused K` is told on standard error.
#![tactic(auto)]

use std::io::{self, Read, Write};

fn main(rt: HostRuntime) -> io::Result<()> {
    // One byte more than the longest job, so that a longer one is seen.
    let mut job = Vec::new(rt.alloc());
    rt.reader().take(16385).read_to_end(&mut job)?;
    let mut out = [0; 27580];
    match stopping::stop(&job, &mut out) {
        Ok(n) => io::writer(&rt).write_all(&out[..n]),
        Err(refusal) => eprintln!(rt; "refused {}", refusal.number()),
    }
}
