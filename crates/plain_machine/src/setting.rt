use nesc_base::Geometry;
use nesc_requests::Machine;

/// What is the same for all steps of a machine.
#[derive(Clone, Copy, Debug, PartialEq, Eq)]
pub struct Setting {
    /// The numbers of the machine.
    pub machine: Machine,
    /// How the image of its files is divided, with the number of data blocks and the slack.
    pub geometry: Geometry,
}
