//! Reading and writing.
ghost use Rattle.std.specs.Prelude.{◌≡◌, ℕ, ◌≤◌, length, take, OnOk, IfErr};
ghost use Rattle.std.specs.Io.KnownBytes.{Appends};
ghost use Rattle.line_runs.specs.declared.fault.RunFault.TheVariants.{Write as WriteFault};

use crate::fault::RunFault;
use std::io::Write;

/// Writes all of a text. A write that takes no byte is a fault, and nothing is written after a fault.
pub fn write_text<W: Write>(writer: &mut W, text: &[u8]) -> Result<(), RunFault>
    ensures ok { OnOk result (Appends (W.contents writer.old) (W.contents writer.new) text.now) }
    ensures error { IfErr result (λ e. e ≡ WriteFault) }
    // At a fault a beginning was written.
    ensures err { IfErr result (λ _. (n : ℕ) × (n ≤ length text.now)
        × Appends (W.contents writer.old) (W.contents writer.new) (take n text.now)) }
{
    let mut written = 0;
    while written < text.len() {
        match writer.write(&text[written..]) {
            Ok(0) | Err(_) => return Err(RunFault::Write),
            Ok(taken) => written += taken,
        }
    }
    Ok(())
}
