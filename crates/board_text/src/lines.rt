// The lines of a text, in turn.
ghost use Rattle.std.specs.Prelude.{◌≡◌, ◌<◌, ◌↔◌, length, Err};
ghost use Rattle.board_text.specs.declared.fault.TextFault.TheVariants.{TooLong};

use super::fault::{LONGEST, TextFault};

// Gives each line to `add`, up to the first that it refuses.
pub fn add_lines<E, F: FnMut(&[u8]) -> Result<(), E>>(
    text: &[u8],
    mut add: F,
) -> Result<(), TextFault<E>>
    requires { F.IsAlwaysCallable add }
    ensures too_long { (result ≡ Err TooLong) ↔ (262144 < length text.now) }
{
    if LONGEST < text.len() as u64 {
        return Err(TextFault::TooLong);
    }
    for (i, line) in text.split(|b| *b == b'\n').enumerate() {
        add(line).map_err(|fault| TextFault::Line {
            number: i + 1,
            fault,
        })?;
    }
    Ok(())
}
