ghost use Rattle.std.specs.Prelude.{◌≡◌, ◌++◌, codes};
ghost use Rattle.std.specs.Fmt.{decimal};
ghost use Rattle.nesc_monitor.specs.Endings.{code_of, error_line, status_of};
ghost use Rattle.nesc_monitor.specs.Starting.{ending_of, ending_of_run};
ghost use Rattle.image_layout.specs.declared.fault.ImageFault.TheVariants.{TwiceOwned};
ghost use Rattle.nesc_monitor.specs.declared.ending.Ending.TheVariants as ending;
ghost use Rattle.text_kit.specs.Writes.{Writes};

use crate::fault::RunFault;
use crate::inputs::tell_input;
use image_layout::{ImageFault, OpenFault};
use nesc_base::{FileNo, Sink, WriteFault};
use nesc_session::StepFault;
use script_lang::InputFault;
use text_kit::write_text;
use trace_text::{Piece, write_pieces};

/// How a command of the program ended.
#[derive(Clone, Copy, Debug, PartialEq, Eq)]
pub enum Status {
    /// It was carried out to its end.
    Done,
    /// The words of the command line are refused.
    Words,
    /// There was no memory. It comes before the first step alone.
    Memory,
    /// A text that was read is refused.
    Input,
    /// The image is refused, or the disk is too small for it. Over a disk that does not tell what it holds this may
    /// also come of a restart, behind lines of steps.
    Image,
    /// The disk of the image failed.
    Device,
    /// A text could not be read.
    Read,
    /// What was to go out could not be written.
    Write,
}

impl Status {
    /// The exit status of the program.
    pub fn code(self) -> u8
        ensures { result ≡ code_of self }
    {
        match self {
            Status::Done => 0,
            Status::Words => 2,
            Status::Memory => 3,
            Status::Input => 4,
            Status::Image => 5,
            Status::Device => 6,
            Status::Read => 7,
            Status::Write => 8,
        }
    }
}

/// What a command came to, as its status and its line on standard error tell.
#[derive(Clone, Copy)]
pub enum Ending {
    /// It was carried out to its end.
    Done,
    /// The words of the command line are refused.
    Words,
    /// There was no memory.
    Memory,
    /// The commands file is refused.
    Commands(InputFault),
    /// The schedule is refused.
    Schedule(InputFault),
    /// The image is refused, or the disk is too small for it.
    Image(ImageFault),
    /// The disk of the image failed.
    Device,
    /// A text could not be read.
    Read,
    /// What was to go out could not be written.
    Write,
}

impl Ending {
    /// What it comes to that an image was not opened.
    pub fn of_opening(fault: OpenFault) -> Ending
        ensures { result ≡ ending_of fault }
    {
        match fault {
            OpenFault::NoMemory => Ending::Memory,
            OpenFault::Disk(_) => Ending::Device,
            OpenFault::Image(fault) => Ending::Image(fault),
        }
    }

    /// What it comes to that the words of a schedule were not taken to their end.
    pub fn of_run(fault: RunFault) -> Ending
        ensures { result ≡ ending_of_run fault }
    {
        match fault {
            RunFault::Write(_) => Ending::Write,
            RunFault::Step(StepFault::Disk(_)) => Ending::Device,
            RunFault::Step(StepFault::Image(fault)) => Ending::Image(fault),
        }
    }

    /// The status of the program.
    pub fn status(self) -> Status
        ensures { result ≡ status_of self }
    {
        match self {
            Ending::Done => Status::Done,
            Ending::Words => Status::Words,
            Ending::Memory => Status::Memory,
            Ending::Commands(_) | Ending::Schedule(_) => Status::Input,
            Ending::Image(_) => Status::Image,
            Ending::Device => Status::Device,
            Ending::Read => Status::Read,
            Ending::Write => Status::Write,
        }
    }

    /// Writes the line on standard error, which is none where all went well.
    pub fn tell<E: Sink>(self, err: &mut E) -> Result<(), WriteFault>
        ensures { Writes E.taken E.faults E.lent err.old err.new (error_line self) result }
    {
        match self {
            Ending::Done => write_text(err, b""),
            Ending::Words => write_text(err, b"nesc: words\n"),
            Ending::Memory => write_text(err, b"nesc: memory\n"),
            Ending::Commands(fault) => tell_input(err, b"commands", fault),
            Ending::Schedule(fault) => tell_input(err, b"schedule", fault),
            Ending::Image(fault) => tell_fault(err, fault),
            Ending::Device => write_text(err, b"nesc: device\n"),
            Ending::Read => write_text(err, b"nesc: read\n"),
            Ending::Write => write_text(err, b"nesc: write\n"),
        }
    }
}

/// Writes the line that says why an image is refused.
fn tell_fault<E: Sink>(err: &mut E, fault: ImageFault) -> Result<(), WriteFault>
    ensures { Writes E.taken E.faults E.lent err.old err.new (error_line (ending.Image fault)) result }
{
    match fault {
        ImageFault::BadSuper { block } => tell_place(err, b"super ", block),
        ImageFault::BadSize { block } => tell_place(err, b"size ", block),
        ImageFault::BadList { block } => tell_place(err, b"list ", block),
        ImageFault::BadTable { block } => tell_place(err, b"table ", block),
        ImageFault::BadOwner { block } => tell_place(err, b"owner ", block),
        ImageFault::TwiceOwned { file, v } => tell_owner(err, file, v),
    }
}

/// Writes the line that says which block of a file is held twice.
fn tell_owner<E: Sink>(err: &mut E, file: FileNo, v: u32) -> Result<(), WriteFault>
    ensures { Writes E.taken E.faults E.lent err.old err.new (error_line (ending.Image (TwiceOwned file v))) result }
{
    let pieces = [
        Piece::Text(b"nesc: image "),
        Piece::Text(b"twice "),
        Piece::Number(u64::from(file.0)),
        Piece::Text(b" "),
        Piece::Number(u64::from(v)),
        Piece::Text(b"\n"),
    ];
    write_pieces(err, &pieces)
}

/// Writes the line that says what is wrong with an image at one of its blocks.
fn tell_place<E: Sink>(err: &mut E, kind: &[u8], block: u32) -> Result<(), WriteFault>
    ensures { Writes E.taken E.faults E.lent err.old err.new
        (codes "nesc: image " ++ kind.now ++ decimal block ++ codes "\n") result }
{
    let pieces = [
        Piece::Text(b"nesc: image "),
        Piece::Text(kind),
        Piece::Number(u64::from(block)),
        Piece::Text(b"\n"),
    ];
    write_pieces(err, &pieces)
}
