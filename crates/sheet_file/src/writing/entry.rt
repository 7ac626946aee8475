ghost use Rattle.std.specs.Prelude.{◌≡◌, ℕ, List, ⊤};
ghost use Rattle.sheet_file.specs.Bytes.{word_bytes, step_bytes, output_bytes};
ghost use Rattle.sheet_file.specs.Writing.{SmallStep, Small};

use sheet::{Operand, Step};

// What a section of a file consists of: an entry of N bytes.
pub(crate) trait Entry<const N: usize>: Copy {
    // That its numbers have room in the bytes.
    ghost fits: { Self → Type 0 };

    ghost written: { Self → List ℕ };

    fn bytes(self) -> [u8; N]
        requires { fits self }
        ensures { result ≡ written self };
}

impl Entry<2> for u16 {
    ghost fits = { λ _. ⊤ };

    ghost written = { word_bytes };

    fn bytes(self) -> [u8; 2] {
        self.to_le_bytes()
    }
}

impl Entry<2> for Operand {
    ghost fits = { Small };

    ghost written = { output_bytes };

    fn bytes(self) -> [u8; 2] {
        (u32::from(self) as u16).to_le_bytes()
    }
}

impl Entry<5> for Step {
    ghost fits = { SmallStep };

    ghost written = { step_bytes };

    fn bytes(self) -> [u8; 5] {
        let [ll, lh]: [u8; 2] = self.left.bytes();
        let [rl, rh]: [u8; 2] = self.right.bytes();
        [u8::from(self.operation), ll, lh, rl, rh]
    }
}
