ghost use Rattle.std.specs.Prelude.{◌≡◌, ◌≢◌, ◌≤◌, ℕ, length, replicate, IfOk, IfNone, IfSome, None};
ghost use Rattle.nesc_requests.specs.Machine.{most_functions};
ghost use Rattle.nesc_requests.specs.Script.{with_numbered};
ghost use Rattle.hypervisor.specs.Attachments.{AreAttachments, file_of, is_off_in};

use nesc_base::{FileNo, FnNo, NoMemory};
use std::alloc::Global;
use std::marker::Model;

/// Which file each function has. No two functions have one file.
#[derive(Debug, Drop)]
pub struct Attachments {
    files: Vec<Option<FileNo>>,
}

impl Model for Attachments {
    ghost use Rattle.hypervisor.specs.Attachments.{AreAttachments, Attachments};

    ghost Value = { Attachments };

    ghost view = { λ attachments. attachments.files.items };

    ghost invariant = { λ attachments. AreAttachments attachments.files.items };
}

impl Attachments {
    /// So many functions, 1 to 16, none of which has a file. An `Err` says that there is no memory for them.
    pub fn new(alloc: Global, functions: u8) -> Result<Attachments, NoMemory>
        requires { functions ≤ most_functions }
        ensures { IfOk result (λ attachments. attachments ≡ replicate functions None) }
    {
        Ok(Attachments {
            files: vec![in alloc; None; usize::from(functions)]?,
        })
    }

    /// Takes its file from each function.
    pub fn clear(&mut self)
        ensures { self.new ≡ replicate (length self.old) None }
    {
        self.files.fill(None);
    }

    /// The file of a function, or `None` where it has none, or there is no such function.
    pub fn file(&self, f: FnNo) -> Option<FileNo>
        ensures file { result ≡ file_of self.now f.0 }
        ensures few { IfSome result (λ _. f.0 ≤ most_functions) }
    {
        let index = usize::from(f.0).checked_sub(1)?;
        *self.files.get(index)?
    }

    /// The function that has a file, or `None` where none has it.
    pub fn function(&self, file: FileNo) -> Option<FnNo>
        ensures some { IfSome result (λ f. file_of self.now f.0 ≡ Some file) }
        ensures none { IfNone result ((f : ℕ) → file_of self.now f ≢ Some file) }
        ensures sound { AreAttachments self.now }
    {
        let index = self.files.iter().position(|taken| *taken == Some(file))?;
        Some(FnNo(index as u8 + 1))
    }

    // There is such a function, and it has no file.
    pub(crate) fn is_off(&self, f: FnNo) -> bool
        ensures { result ≡ is_off_in self.now f.0 }
    {
        let Some(index) = usize::from(f.0).checked_sub(1) else {
            return false;
        };
        self.files.get(index) == Some(&None)
    }

    // Gives a function, which has no file, one that no function has, or takes its file from it.
    pub(crate) fn set(&mut self, f: FnNo, file: Option<FileNo>)
        requires one { 1 ≤ f.0 }
        requires among { f.0 ≤ length self.old }
        requires apart { (other : FileNo) → file ≡ Some other → (g : ℕ) → file_of self.old g ≢ Some other }
        ensures { self.new ≡ with_numbered self.old f.0 file }
    {
        self.files[usize::from(f.0) - 1] = file;
    }
}
