// 32-bit words, the lowest byte first.
ghost use Rattle.std.specs.Prelude.{◌≡◌, ◌+◌, ◌≤◌, length};
ghost use Rattle.job.specs.Words.{word};

// The word at i.
#[tactic(auto, unfolding(crate::specs::Words::word))]
pub fn word_at(job: &[u8], i: usize) -> u32
    requires { i + 4 ≤ length job.now }
    ensures { result ≡ word job.now i }
{
    u32::from_le_bytes([job[i], job[i + 1], job[i + 2], job[i + 3]])
}
