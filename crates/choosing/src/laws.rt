ghost use Rattle.choosing.specs.Laws.{TakenInOrder};

// A kernel is taken if it has every column and no row behind them is covered by one taken before, and only then.
pub fn taken_in_order()
    ensures { TakenInOrder }
{}
