ghost use Rattle.algebra.specs.Figures.{KernelFigures};
ghost use Rattle.algebra.specs.Laws.{KernelForms, NestedKernels, QuotientsMade};

// That each letter is missing in a quotient is the same as that no letter is in all of them.
pub fn kernel_forms()
    ensures { KernelForms }
{}

// The kernels of a quotient are kernels of the expression: their co-kernels are multiplied. Every expression has its
// quotient by every cube.
pub fn nested_kernels()
    ensures nested { NestedKernels }
    ensures made { QuotientsMade }
{}

// The kernels of no row, of one row, of ab + ac and of ab + ac + bc.
pub fn kernel_figures()
    ensures { KernelFigures }
{}
