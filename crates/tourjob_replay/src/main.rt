// Runs many jobs as `tourjob` runs one. Standard input is a row of jobs, each behind its length as a little-endian 32-bit word. Each is answered
// before more input is waited for. Input that cannot be read ends there; a write that fails is no error.
#![tactic(auto)]

use std::io::{self, BufReader, Read, Write};

fn main(rt: HostRuntime) -> io::Result<()> {
    let mut input = BufReader::new(rt.alloc(), rt.reader())?;
    let mut output = io::writer(&rt);
    let mut head = [0; 4];
    let mut job = [0; 16385];
    let mut out = [0; 4096];
    for _ in 0..u64::MAX {
        if input.read_exact(&mut head).is_err() {
            break;
        }
        let n = u32::from_le_bytes(head) as usize;
        if job.len() < n || input.read_exact(&mut job[..n]).is_err() {
            break;
        }
        let k = tour::tour(&job[..n], &mut out);
        let _ = output.write_all(&out[..k]);
    }
    Ok(())
}
