// The progress of a run: four files, each at a position of its own, beside the signal and the pending moment. What a status would confirm is the
// smallest of the four. It is not stored, so that no words can disagree with it.
ghost use Rattle.std.specs.Prelude.{◌≡◌, false};
ghost use Rattle.error.specs.Refusal.{kind_number};
ghost use Rattle.progress.specs.Progress.{no_moment};
ghost use Rattle.progress.specs.Files.{file_number, file_kind, files, progress, smaller, larger, smallest, raised_in, as_cell, beside, filed_of, filed_by};

use crate::ProgressCell;
use error::Kind;
use lsn::Lsn;
use moment::Moment;

// The files are numbered from 0 to 3. They are fields, no array: `FileCalls` names each, and so do the theorems over lists of calls.
#[derive(Clone, Copy)]
pub struct Files {
    pub zero: Lsn,
    pub one: Lsn,
    pub two: Lsn,
    pub three: Lsn,
}

// A pending moment of 0 stands for none.
#[derive(Clone, Copy)]
pub struct Progress {
    pub files: Files,
    pub signalled: bool,
    pub pending_since: Moment,
    pub timed: bool,
}

// Why a report is refused.
#[derive(Clone, Copy)]
pub enum FileRefusal {
    NoSuchFile = 31, // the file's number is above 3
}

// The progress after a report, and whether it was accepted.
#[derive(Clone, Copy)]
pub struct Filed {
    pub progress: Progress,
    pub verdict: Result<(), FileRefusal>,
}

// The highest number of a file.
pub const LAST_FILE: u64 = 3;

impl FileRefusal {
    // The refusal's number; 26 to 30 are of other crates.
    pub fn number(self) -> u8
        ensures { result ≡ file_number self }
    {
        self as u8
    }

    // Only the caller's own input brings it about.
    pub fn kind(self) -> Kind
        ensures { kind_number result ≡ file_kind self }
    {
        Kind::Usage
    }
}

fn smaller(a: Lsn, b: Lsn) -> Lsn
    ensures { result ≡ smaller a b }
{
    Lsn(a.0.min(b.0))
}

fn larger(a: Lsn, b: Lsn) -> Lsn
    ensures { result ≡ larger a b }
{
    Lsn(a.0.max(b.0))
}

impl Files {
    // All four at the start.
    pub fn new(start: Lsn) -> Files
        ensures { result ≡ files start start start start }
    {
        Files {
            zero: start,
            one: start,
            two: start,
            three: start,
        }
    }

    pub fn smallest(self) -> Lsn
        ensures { result ≡ smallest self }
    {
        let a = smaller(self.zero, self.one);
        let b = smaller(self.two, self.three);
        smaller(a, b)
    }

    // A file goes to the larger of its position and a reported one; no other number is a file's.
    fn raised(self, file: u64, position: Lsn) -> Files
        ensures { result ≡ raised_in file position self }
    {
        let mut files = self;
        if file == 0 {
            let at = larger(self.zero, position);
            files.zero = at;
            return files;
        }
        if file == 1 {
            let at = larger(self.one, position);
            files.one = at;
            return files;
        }
        if file == 2 {
            let at = larger(self.two, position);
            files.two = at;
            return files;
        }
        if file == 3 {
            let at = larger(self.three, position);
            files.three = at;
            return files;
        }
        self
    }
}

// Files, with what a cell knows beside its position.
fn beside(files: Files, cell: ProgressCell) -> Progress
    ensures { result ≡ beside files cell }
{
    let pending = cell.pending_since;
    Progress {
        files,
        signalled: cell.signalled,
        pending_since: pending,
        timed: cell.timed,
    }
}

impl Progress {
    pub fn new(start: Lsn, timed: bool) -> Progress
        ensures { result ≡ progress (files start start start start) false no_moment timed }
    {
        let files = Files::new(start);
        Progress {
            files,
            signalled: false,
            pending_since: Moment(0),
            timed,
        }
    }

    // What a status would confirm.
    pub fn position(self) -> Lsn
        ensures { result ≡ smallest self.files }
    {
        let files = self.files;
        files.smallest()
    }

    // The cell that the four files have together.
    pub fn cell(self) -> ProgressCell
        ensures { result ≡ as_cell self }
    {
        let applied = self.position();
        let pending = self.pending_since;
        ProgressCell {
            applied,
            signalled: self.signalled,
            pending_since: pending,
            timed: self.timed,
        }
    }

    // The same files, with what a cell knows beside its position.
    pub fn with_cell(self, cell: ProgressCell) -> Progress
        ensures { result ≡ beside self.files cell }
    {
        let files = self.files;
        beside(files, cell)
    }

    // A file's report of a position at a moment. The cell is raised to the smallest of the four; that raises it only where the smallest rose.
    pub fn report(self, file: u64, position: Lsn, moment: Moment) -> Filed
        ensures { filed_by result ≡ filed_of self file position moment }
    {
        if LAST_FILE < file {
            return Filed {
                progress: self,
                verdict: Err(FileRefusal::NoSuchFile),
            };
        }
        let before = self.files;
        let after = before.raised(file, position);
        let smallest = after.smallest();
        let cell = self.cell();
        let raised = cell.raise(smallest, moment);
        let next = raised.cell;
        let progress = beside(after, next);
        Filed {
            progress,
            verdict: Ok(()),
        }
    }
}
