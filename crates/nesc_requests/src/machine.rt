/// The numbers of the machine.
#[derive(Clone, Copy, Debug, PartialEq, Eq)]
pub struct Machine {
    /// How many functions there are, 1 to 16.
    pub functions: u8,
    /// How many requests may wait for one function, 1 to 64.
    pub queue: u8,
    /// How many nodes of trees there are for all functions, 8 to 4,096.
    pub pool: u16,
    /// How many translations the cache has, 1 to 64.
    pub btlb: u8,
}

impl Machine {
    /// The machine of a commands file that names none.
    pub const DEFAULT: Machine = Machine {
        functions: 1,
        queue: 4,
        pool: 8,
        btlb: 4,
    };

    /// How many functions any machine has at most.
    pub const MOST_FUNCTIONS: u8 = 16;

    /// How many requests may wait for one function of any machine.
    pub const MOST_QUEUED: u8 = 64;

    /// How few nodes of trees any machine has.
    pub const FEWEST_NODES: u16 = 8;

    /// How many nodes of trees any machine has at most.
    pub const MOST_NODES: u16 = 4_096;

    /// How many translations the cache of any machine has at most.
    pub const MOST_TRANSLATIONS: u8 = 64;
}
