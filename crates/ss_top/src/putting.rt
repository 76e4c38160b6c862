//! Putting texts under their names.

ghost use Rattle.std.specs.Prelude.{◌≤◌, ℕ, List, Option, None, map};
ghost use Rattle.ss_edge.specs.Edge.{Kept};
ghost use Rattle.ss_top.specs.Doing.{Does, filing};
ghost use Rattle.ss_top.specs.Headline.{seen};
ghost use Rattle.ss_top.specs.Simulate.{puts_by};

use crate::doing::Stop;
use crate::print::{Message, tell};
use crate::sheets::Sheet;
use ss_edge::{Shelf, Sink};

/// Puts texts under their names, one after another.
pub fn put_sheets<V: Shelf, R: Sink>(
    sheets: &[Sheet],
    shelf: &mut V,
    err: &mut R,
) -> Result<(), Stop>
    ensures does { (taken : Option (List ℕ)) (faults : ℕ) → Does (filing (puts_by sheets.now))
        (seen (V.held shelf.old) (V.read_faults shelf.old) (V.put_faults shelf.old) taken faults (R.taken err.old) (R.faults err.old))
        (seen (V.held shelf.new) (V.read_faults shelf.new) (V.put_faults shelf.new) taken faults (R.taken err.new) (R.faults err.new))
        result }
    ensures reads { Kept (V.read_faults shelf.old) (V.read_faults shelf.new) }
    ensures puts { Kept (V.put_faults shelf.old) (V.put_faults shelf.new) }
    ensures err_faults { R.faults err.old ≤ R.faults err.new }
{
    for sheet in sheets {
        let name = sheet.name.as_str();
        match shelf.put(name, sheet.text.as_slice()) {
            Ok(()) => (),
            Err(_) => {
                tell(err, Message::WriteFault, name.as_bytes());
                return Err(Stop::WriteFault);
            }
        }
    }
    Ok(())
}
