ghost use Rattle.std.specs.Prelude.{◌≡◌, ◌+◌, ◌-◌, ◌^◌, ◌<◌, ◌≤◌, min, length, slice_set};
ghost use Rattle.algebra.specs.Cubes.{letters};
ghost use Rattle.cubes.specs.Powers.{power};
ghost use Rattle.kernels.specs.Lists.{Written};
ghost use Rattle.kernels.specs.Search.{IsKernel, Kernels, Small};

use crate::Kernel;
use crate::node::Node;
use cubes::LETTERS;

// A list that is lent, and how many kernels are listed so far: they may be more than it has places.
#[derive(Drop)]
pub(crate) struct Listing<'a> {
    pub out: &'a mut [Kernel],
    pub count: usize,
}

impl Listing<'_> {
    // Writes a kernel behind those so far, if there is a place for it, and counts it.
    fn put(&mut self, x: Kernel)
        ensures same_reference { self.new.out.ghost_name ≡ self.old.out.ghost_name }
        ensures short { length self.new.out.now < 2 ^ 64 }
        ensures end { self.new.count ≡ min (self.old.count + 1) (2 ^ 64 - 1) }
        ensures written { self.new.out.now ≡ slice_set self.old.out.now self.old.count x }
    {
        if self.count < self.out.len() {
            self.out[self.count] = x;
        }
        self.count = self.count.saturating_add(1);
    }

    // Lists the kernels whose co-kernel is a multiple of the node's cube with its powers before the
    // letter i: that cube itself, then those with more of a letter, the last letter first.
    pub(crate) fn search(&mut self, number: usize, node: &Node, i: usize)
        requires letter { i ≤ letters }
        requires small { Small node.now.rest (power node.now.cube) }
        requires own { IsKernel node.now.rest (power node.now.cube) (power node.now.cube) }
        ensures same_reference { self.new.out.ghost_name ≡ self.old.out.ghost_name }
        ensures written { Written (Kernels number node.now.rest (power node.now.cube) i) self.old.count self.old.out.now self.new.out.now self.new.count }
    {
        self.put(Kernel {
            expression: number,
            cokernel: node.cube,
            rows: node.rest.used_rows(),
        });
        for j in (i..LETTERS).rev() {
            if let Some(child) = node.step(j) {
                self.search(number, &child, j);
            }
        }
    }
}
