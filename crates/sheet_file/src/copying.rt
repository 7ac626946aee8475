ghost use Rattle.std.specs.Prelude.{◌≡◌, vec_len};
ghost use Rattle.sheet_file.specs.declared.copying.CopyRefusal.TheVariants.{Read as NotRead, Write as NotWritten};
ghost use Rattle.sheet_file.specs.Copying.{SheetAgain, FileAgain};

use crate::reading::{ReadRefused, read};
use crate::writing::{WriteRefusal, write};
use sheet::{Refusal, Sheet, Step};

// Why nothing was copied: what a read or a write said.
#[derive(Clone, Copy, PartialEq, Eq, Debug)]
pub enum CopyRefusal {
    Read { why: Refusal, place: usize },
    Write(WriteRefusal),
}

// The step buffer is let go.
impl From<ReadRefused> for CopyRefusal {
    ghost from_gives = { λ refused c. c ≡ NotRead refused.why refused.place };

    fn from(refused: ReadRefused) -> CopyRefusal {
        CopyRefusal::Read {
            why: refused.why,
            place: refused.place,
        }
    }
}

impl From<WriteRefusal> for CopyRefusal {
    ghost from_gives = { λ why c. c ≡ NotWritten why };

    fn from(why: WriteRefusal) -> CopyRefusal {
        CopyRefusal::Write(why)
    }
}

// Writes a sheet into `out` and reads it again from there: it is the same sheet.
pub fn copy_sheet(sheet: &Sheet, out: &mut [u8], buffer: Vec<Step>) -> Result<Sheet, CopyRefusal>
    ensures { SheetAgain sheet.now out.old out.new (vec_len buffer) result }
{
    let end = write(sheet, out)?;
    Ok(read(&out[0..end], buffer)?)
}

// Reads a file and writes its sheet into `out`: the same bytes.
pub fn copy_file(file: &[u8], buffer: Vec<Step>, out: &mut [u8]) -> Result<usize, CopyRefusal>
    ensures { FileAgain file.now out.old out.new (vec_len buffer) result }
{
    let sheet = read(file, buffer)?;
    Ok(write(&sheet, out)?)
}
