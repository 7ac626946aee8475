ghost use Rattle.std.specs.Prelude.{◌≡◌, ◌<◌, ◌≤◌, Some, None};
ghost use Rattle.choosing.specs.Progress.{worth_of, least};

use crate::choice::Choice;

impl Choice {
    // The saving: weight × multiplications + additions.
    pub fn worth(&self, weight: u32) -> u128
        ensures { result ≡ worth_of weight self.now }
    {
        weight as u128 * self.multiplications + self.additions
    }
}

// The better of the two; the older one, if they are worth the same, or if the new one is worth nothing.
pub(crate) fn better(best: Option<Choice>, x: Choice, weight: u32) -> Option<Choice>
    ensures takes { least weight best < worth_of weight x → result ≡ Some x }
    ensures keeps { worth_of weight x ≤ least weight best → result ≡ best }
{
    let least = best.map_or(0, |b| b.worth(weight));
    if x.worth(weight) > least {
        Some(x)
    } else {
        best
    }
}
