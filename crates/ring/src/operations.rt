ghost use Rattle.std.specs.Prelude.{◌≡◌, ◌^◌};
ghost use Rattle.ring.specs.Ring.{ones_sum};
ghost use Rattle.ring.specs.Pairs.{pairs};
ghost use Rattle.ring.specs.Kinds.{word_ring, word_meaning, pair_meaning, numbers};
ghost use Rattle.ring.specs.Plain.{Modular, Dual};

use crate::{Pair, Ring, Wheel, Word};

// What the six calls of a kind answer, at two values and a numeral.
#[derive(Drop)]
pub struct Operations<R> {
    pub zero: R,
    pub one: R,
    pub numeral: R,
    pub sum: R,
    pub product: R,
    pub opposite: R,
}

// The six calls at x, y and n, over any kind.
pub fn operations_at<R: Ring>(x: R, y: R, n: u16) -> Operations<R>
    ensures zero { R.meaning result.zero ≡ R.ring.zero }
    ensures one { R.meaning result.one ≡ R.ring.one }
    ensures numeral { R.meaning result.numeral ≡ ones_sum R.ring n }
    ensures sum { R.meaning result.sum ≡ R.ring.plus (R.meaning x) (R.meaning y) }
    ensures product { R.meaning result.product ≡ R.ring.times (R.meaning x) (R.meaning y) }
    ensures opposite { R.meaning result.opposite ≡ R.ring.opposite (R.meaning x) }
{
    Operations {
        zero: R::zero(),
        one: R::one(),
        numeral: R::numeral(n),
        sum: x.add(y),
        product: x.multiply(y),
        opposite: x.opposite(),
    }
}

// The generic calls at words, in plain numbers: this fixes what a word means, and in which ring.
// Three such functions pin each a kind to plain numbers. `operations_at` is the generic one: a contract at
// every kind can name no modulus.
pub fn word_operations(x: Word, y: Word, n: u16) -> Operations<Word>
    ensures plain { Modular (2 ^ 32) x.value y.value n result.zero.value result.one.value result.numeral.value result.sum.value result.product.value result.opposite.value }
    ensures numeral { result.numeral.value ≡ n }
{
    operations_at(x, y, n)
}

// The generic calls at wheels, in plain numbers.
pub fn wheel_operations(x: Wheel, y: Wheel, n: u16) -> Operations<Wheel>
    ensures { Modular 97 x.value y.value n result.zero.value result.one.value result.numeral.value result.sum.value result.product.value result.opposite.value }
{
    operations_at(x, y, n)
}

// The generic calls at pairs of words, in plain numbers.
pub fn pair_operations(x: Pair<Word>, y: Pair<Word>, n: u16) -> Operations<Pair<Word>>
    ensures { Dual (2 ^ 32) (numbers x) (numbers y) n (numbers result.zero) (numbers result.one) (numbers result.numeral) (numbers result.sum) (numbers result.product) (numbers result.opposite) }
{
    operations_at(x, y, n)
}

// A pair over a pair is a kind again: its product is that of pairs over pairs of words.
pub fn pair_of_pairs_product(x: Pair<Pair<Word>>, y: Pair<Pair<Word>>) -> Pair<Pair<Word>>
    ensures { pair_meaning (pair_meaning word_meaning) result ≡ (pairs (pairs word_ring)).times (pair_meaning (pair_meaning word_meaning) x) (pair_meaning (pair_meaning word_meaning) y) }
{
    x.multiply(y)
}
