// Reads a job on standard input and prints its loop, or why there is none. Input that cannot be read ends there; what cannot be written is passed over.
#![tactic(auto)]

fn main() {
    // One byte more than the longest job, so that a longer one is seen.
    let mut job = [0; 16385];
    let n = io::read_full(0, &mut job);
    let mut out = [0; 4096];
    let k = tour::tour(&job[..n], &mut out);
    io::write_all(1, &out[..k]);
}
