ghost use Rattle.std.specs.Prelude.{◌≡◌, ℕ, ◌+◌, ◌<◌, ◌≤◌, length, Ok, Err};
ghost use Rattle.sheet_file.specs.File.{header_bytes, sheet_bytes};
ghost use Rattle.sheet_file.specs.Writing.{Puts, write_refusal_number};

use sheet::Sheet;

mod entry;
mod writer;

use writer::Writer;

// Why a sheet is not written; the discriminant is the number of the refusal.
#[derive(Clone, Copy, PartialEq, Eq, Debug)]
pub enum WriteRefusal {
    // a buffer shorter than the file
    ShortBuffer = 17,
}

impl From<WriteRefusal> for u8 {
    ghost from_gives = { λ why n. n ≡ write_refusal_number why };

    fn from(why: WriteRefusal) -> u8 {
        why as u8
    }
}

// The bytes before the sections: the version, and offset and length of each section.
fn header(held: u16, used: u16) -> [u8; 13]
    requires held { held ≤ 8 }
    requires used { used ≤ 2000 }
    ensures { result ≡ header_bytes held used }
{
    let steps_at = 13 + 2 * held;
    let outputs_at = steps_at + 5 * used;
    let [hl, hh] = (2 * held).to_le_bytes();
    let [sl, sh] = steps_at.to_le_bytes();
    let [ul, uh] = (5 * used).to_le_bytes();
    let [ol, oh] = outputs_at.to_le_bytes();
    [3, 13, 0, hl, hh, sl, sh, ul, uh, ol, oh, 32, 0]
}

// Writes a sheet as a file; answers the file's length.
pub fn write(sheet: &Sheet, out: &mut [u8]) -> Result<usize, WriteRefusal>
    ensures fits { elim result [ Ok n ↦ n ≤ length out.old | Err _ ↦ Unit {0} ] }
    ensures written { elim result [ Ok n ↦ Puts out.old 0 (sheet_bytes sheet.now) n out.new | Err _ ↦ (length out.old < length (sheet_bytes sheet.now)) × (out.new ≡ out.old) ] }
{
    let numerals = sheet.numerals();
    let steps = sheet.steps();
    let outputs = sheet.outputs();
    if out.len() < 45 + 2 * numerals.len() + 5 * steps.len() {
        return Err(WriteRefusal::ShortBuffer);
    }
    let mut writer = Writer { out, at: 0 };
    writer.put(&header(numerals.len() as u16, steps.len() as u16));
    writer.put_all(numerals);
    writer.put_all(steps);
    writer.put_all(outputs);
    Ok(writer.at)
}
