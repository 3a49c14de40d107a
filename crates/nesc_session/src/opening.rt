//! The machine is opened on a disk.
ghost use Rattle.std.specs.Prelude.{◌≡◌, Err, IfOk, IsErrOf, true};
ghost use Rattle.nesc_base.specs.declared.geometry.Geometry.{Geometry};
ghost use Rattle.nesc_base.specs.Disk.{Goes, Unchanged};
ghost use Rattle.nesc_base.specs.Fault.{HasCause};
ghost use Rattle.nesc_base.specs.Geometry.{IsGeometry};
ghost use Rattle.nesc_requests.specs.Machine.{IsMachine};
ghost use Rattle.image_layout.specs.declared.fault.ImageFault.{ImageFault};
ghost use Rattle.image_layout.specs.declared.fault.OpenFault.TheVariants as fault;
ghost use Rattle.image_layout.specs.declared.fault.OpenFault.TheVariants.{Disk, Image};
ghost use Rattle.image_layout.specs.Opens.{IsDivided};
ghost use Rattle.image_layout.specs.Refusal.{IsRefused};
ghost use Rattle.nesc_session.specs.Buffers.{waiting_buffers};
ghost use Rattle.nesc_session.specs.Opening.{IsNew, LeavesOpened, StartsIn, open_fault_of};
ghost use Rattle.nesc_session.specs.Resting.{Rests};

use crate::functions::new_requests;
use crate::session::Session;
use file_layer::Files;
use host_journal::{Journal, StartFault};
use hypervisor::Attachments;
use image_layout::{ImageFault, OpenFault, read_geometry};
use nesc_base::{Disk, NoMemory};
use nesc_requests::Machine;
use plain_machine::Setting;
use std::alloc::Global;

impl Session {
    /// The files as which the image on the disk opens, and the functions of the machine, all of them off. The numbers
    /// of the machine are within their limits. A journal that was left open is replayed first.
    ///
    /// An `Err` says why the image was not opened, by the first cause, or that there is no memory: for what is staged,
    /// for the owners of data blocks, and for the requests that may wait. No other call takes any. After it the image
    /// stands for the same as before.
    pub fn begin<D: Disk>(
        alloc: Global,
        machine: Machine,
        disk: &mut D,
    ) -> Result<Session, OpenFault>
        requires machine { IsMachine machine }
        ensures rests { IfOk result (λ session. Rests session (D.known disk.new)) }
        ensures machine { IfOk result (λ session. session.setting.machine ≡ machine) }
        ensures buffers { IfOk result (λ session. waiting_buffers session.requests.items ≡ 0) }
        ensures divided { (D.known disk.old).tells ≡ true
            → IfOk result (λ session. IsDivided (D.known disk.old).contents session.setting.geometry) }
        ensures start { (D.known disk.old).tells ≡ true
            → IfOk result (λ session. StartsIn session (D.known disk.old).contents (D.known disk.new)) }
        ensures refused { (D.known disk.old).tells ≡ true → (fault : ImageFault) → IsErrOf result (Image fault)
            → IsRefused (D.known disk.old).contents fault }
        ensures memory { result ≡ Err fault.NoMemory → Unchanged (D.known disk.old) (D.known disk.new) }
        ensures divided_first { result ≡ Err fault.NoMemory → (D.known disk.old).tells ≡ true
            → (geometry : Geometry) × IsDivided (D.known disk.old).contents geometry }
        ensures leaves { LeavesOpened D.known disk.old disk.new result }
        ensures cause { HasCause (D.known disk.old).faults (D.known disk.new).faults (IsErrOf result (Disk _)) }
        ensures goes { Goes (D.known disk.old) (D.known disk.new) }
        ensures keeps { D.keeps disk.old disk.new }
    {
        let geometry = read_geometry(disk)?;
        let mut session = new_session(alloc, Setting { machine, geometry })?;
        session.journal.start(disk).map_err(open_fault)?;
        session.files.load(&session.journal, disk)?;
        Ok(session)
    }
}

// A machine that was not started yet, with all the memory that it needs.
fn new_session(alloc: Global, setting: Setting) -> Result<Session, NoMemory>
    requires machine { IsMachine setting.machine }
    requires sizes { IsGeometry setting.geometry }
    ensures { IfOk result (IsNew setting) }
{
    Ok(Session {
        setting,
        files: Files::new(alloc, setting.geometry)?,
        journal: Journal::new(alloc, setting.geometry)?,
        attachments: Attachments::new(alloc, setting.machine.functions)?,
        requests: new_requests(alloc, setting.machine.functions, setting.machine.queue)?,
        last: 0,
    })
}

// Why the journal could not be started.
fn open_fault(start: StartFault) -> OpenFault
    ensures { result ≡ open_fault_of start }
{
    match start {
        StartFault::Disk(disk) => OpenFault::Disk(disk),
        StartFault::BadList { block } => OpenFault::Image(ImageFault::BadList { block }),
    }
}
