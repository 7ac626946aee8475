ghost use Rattle.rewriting.specs.Figures.{MinusFigure, ShareFigure};

// Two small rewritings: two negative terms with a common factor, and two terms with a common cube of degree two.
pub fn rewriting_figures()
    ensures minus { MinusFigure }
    ensures share { ShareFigure }
{}
