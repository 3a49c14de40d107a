ghost use Rattle.std.specs.Prelude.{◌≡◌, ◌-◌, length, slice_set};
ghost use Rattle.nesc_requests.specs.Machine.{most_functions};
ghost use Rattle.tree_pruner.specs.Roots.{IsFunction, no_roots, root_of};

use nesc_base::FnNo;
use nesc_requests::Machine;
use std::marker::Model;

const FUNCTIONS: usize = Machine::MOST_FUNCTIONS as usize;

/// The address of the root of each function's tree, 0 where it has none.
#[derive(Debug, Drop)]
pub struct Roots {
    items: [u32; FUNCTIONS],
}

impl Model for Roots {
    ghost use Rattle.tree_pruner.specs.Roots as value;

    ghost Value = { value.Roots };

    ghost view = { λ roots. roots.items };
}

impl Roots {
    /// No function has a tree.
    pub fn none() -> Roots
        ensures { result ≡ no_roots }
    {
        Roots {
            items: [0; FUNCTIONS],
        }
    }

    /// The root of a function, 1 to 16.
    pub fn get(&self, f: FnNo) -> u32
        requires { IsFunction f.0 }
        ensures root { result ≡ root_of self.now f.0 }
        ensures all { length self.now ≡ most_functions }
    {
        self.items[usize::from(f.0) - 1]
    }

    /// The root of a function, 1 to 16, is this one from now on.
    pub fn set(&mut self, f: FnNo, root: u32)
        requires { IsFunction f.0 }
        ensures { self.new ≡ slice_set self.old (f.0 - 1) root }
    {
        self.items[usize::from(f.0) - 1] = root;
    }
}
