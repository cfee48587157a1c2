//! Putting a text whole.

ghost use Rattle.std.specs.Prelude.{◌≡◌, ◌≤◌, OnErr, OnOk};
ghost use Rattle.enc_outside.specs.Count.{Rose};
ghost use Rattle.enc_outside.specs.Files.{StaysUntold, Told};
ghost use Rattle.whole_files.specs.Output.{Adds, AddsFront};

use enc_outside::{Failed, Sink};

/// Puts all of a text, in as many writes as it takes. An `Err` says that a write failed: a beginning of the text may have been put.
pub fn put_all<O: Sink>(out: &mut O, text: &[u8]) -> Result<(), Failed>
    ensures ok { OnOk result (Told (Adds text.now) (O.written out.old) (O.written out.new)) }
    ensures err { OnErr result (Told (AddsFront text.now) (O.written out.old) (O.written out.new)) }
    ensures cause { OnErr result (Rose (O.faults out.old) (O.faults out.new)) }
    ensures untold { StaysUntold (O.written out.old) (O.written out.new) }
    ensures faults { O.faults out.old ≤ O.faults out.new }
    ensures kept { OnOk result (O.faults out.new ≡ O.faults out.old) }
{
    let mut done = 0;
    while done < text.len() {
        done += out.put(&text[done..])?;
    }
    Ok(())
}
