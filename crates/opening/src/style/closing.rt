ghost use Rattle.std.specs.Prelude.{◌≡◌};
ghost use Rattle.table.specs.Sound.{Sound};
ghost use Rattle.opening.specs.Styles.{table_of};

use crate::style::OpenStyle;
use table::Table;

impl OpenStyle {
    // The table of the terms taken; no more are taken then.
    pub fn into_table(self) -> Table
        ensures same { result ≡ table_of self }
        ensures sound { ∥ Sound result ∥₁ }
    {
        self.table
    }
}
