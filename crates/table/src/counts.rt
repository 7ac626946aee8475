ghost use Rattle.table.specs.Counting.{CountedOver};

use crate::table::Table;
use sheet::Counts;

impl Table {
    // The operations that the expressions take, counted over all that stand.
    pub fn counts(&self) -> Counts
        ensures { CountedOver self.now result }
    {
        let mut sum = Counts::default();
        for x in &self.expressions[..self.standing()] {
            sum.multiplications += x.multiplications() as usize;
            sum.additions += x.additions() as usize;
            sum.negations += x.negations() as usize;
        }
        sum
    }
}
