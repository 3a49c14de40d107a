use image_layout::ImageFault;
use nesc_base::DiskFault;

/// Why a step could not be taken. The machine has to be opened again then.
#[derive(Clone, Copy, Debug, PartialEq, Eq)]
pub enum StepFault {
    /// The disk failed in a commit or a restart.
    Disk(DiskFault),
    /// What a restart read opens as no files. A disk that tells what it holds never comes to that.
    Image(ImageFault),
}
