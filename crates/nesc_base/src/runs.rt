ghost use Rattle.std.specs.Prelude.{◌≡◌, List, length, slice_get};
ghost use Rattle.nesc_base.specs.Runs.{AreRuns};

/// Blocks of a file that stand one behind the other in it and on the disk.
#[derive(Clone, Copy, Debug, PartialEq, Eq)]
pub struct Run {
    /// The first of them, by where it stands in the file.
    pub first: u32,
    /// How many they are, 1 or more.
    pub count: u32,
    /// Where the first stands on the disk, as a number of blocks.
    pub place: u32,
}

/// Places of a disk, from one on up to another, which is not of them.
#[derive(Clone, Copy, Debug, PartialEq, Eq)]
pub struct Area {
    pub from: u32,
    pub to: u32,
}

/// The runs in which the held blocks of a file lie: as few as they can be, in rising order.
pub trait Runs {
    ghost use Rattle.nesc_base.specs.declared.runs.Run.{Run};

    /// The runs.
    ghost runs: { Self → List Run };

    /// How many there are. They are the maximal runs of a file.
    fn count(&self) -> u32
        ensures count { result ≡ length (runs self.now) }
        ensures are { AreRuns (runs self.now) };

    /// The run at a place, counted from 0, or `None` past the last.
    fn run(&self, k: u32) -> Option<Run>
        ensures { result ≡ slice_get (runs self.now) k };
}
