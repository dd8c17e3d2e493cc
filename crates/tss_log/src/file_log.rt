// A log in a file, which gets it in pieces.
ghost use Rattle.std.specs.Prelude.{◌≡◌, ◌≤◌, ℕ, List, Option, [], length, IsTrue, OnOk, OnErr};
ghost use Rattle.tss_base.specs.Event.{fits};
ghost use Rattle.tss_outside.specs.Outside.{Held, Rose, AppendsWhereTold};
ghost use Rattle.tss_protocol.specs.Text.{ended_line, log_header};
ghost use Rattle.tss_log.specs.Logs.{event_line, followed_by, Follows, Stays, Grows, HoldsPart};
ghost use Rattle.tss_log.specs.FileLogs.{held_by, text_by, other_by, faults_by, KeepsFiles, AppendsPiece, PutsLine, PutsLast};

use crate::lines::HEADER;
use crate::log::Log;
use crate::piece::Piece;
use tss_base::Event;
use tss_events::event_text;
use tss_outside::{Failed, Files};

/// A log in a file of the present format. The file gets it in pieces of at most 4,096 bytes that end at a line's end,
/// each with as many whole lines as fit, the header first. After a fault nothing more should be put.
#[derive(Drop)]
pub struct FileLog<'a, F: Files> {
    /// Where the file is.
    pub files: &'a mut F,
    /// Its name.
    pub name: &'a str,
    /// The lines for the next piece.
    pub kept: Piece,
}

impl<'a, F: Files> FileLog<'a, F> {
    /// A log that keeps the header. Nothing is put into the file yet.
    pub fn new(files: &'a mut F, name: &'a str) -> FileLog<'a, F>
        ensures same_files { result.files.ghost_name ≡ files.entry.ghost_name }
        ensures files { result.files.now ≡ files.old }
        ensures name { result.name.now ≡ name.now }
        ensures kept { result.kept ≡ ended_line log_header }
    {
        let mut kept = Piece::new();
        kept.keep(&HEADER);
        kept.keep(b"\n");
        FileLog { files, name, kept }
    }

    /// Appends what is kept to the file, as one piece, and then keeps this line alone.
    fn append_kept(&mut self, line: &[u8]) -> Result<(), Failed>
        requires { length line.now ≤ 4096 }
        ensures piece { AppendsPiece F.Files self.old self.new result line.now }
        ensures keeps { KeepsFiles F.Files self.old self.new }
    {
        self.files.append(self.name, self.kept.bytes())?;
        self.kept.begin(line);
        Ok(())
    }

    /// Keeps a line after what was kept or, where it doesn't fit, after that was appended.
    fn put_line(&mut self, line: &[u8]) -> Result<(), Failed>
        requires { length line.now ≤ 4096 }
        ensures { PutsLine F.Files self.old self.new result line.now }
    {
        if line.len() > self.kept.room() {
            return self.append_kept(line);
        }
        self.kept.keep(line);
        Ok(())
    }

    /// Appends what is kept, if anything.
    fn put_last(&mut self) -> Result<(), Failed>
        ensures { PutsLast F.Files self.old self.new result }
    {
        if self.kept.bytes().is_empty() {
            return Ok(());
        }
        self.append_kept(&[])
    }
}

impl<'a, F: Files> Log for FileLog<'a, F> {
    ghost held = { held_by F.Files };

    ghost text = { text_by F.Files };

    ghost other = { other_by F.Files };

    ghost faults = { faults_by F.Files };

    ghost keeps = { KeepsFiles F.Files };

    fn line(&mut self, e: &Event) -> Result<(), Failed>
        requires { IsTrue (fits e.now) }
        ensures ok { OnOk result
            (AppendsWhereTold (text_by F.Files self.old) (text_by F.Files self.new) (event_line e.now)) }
        ensures prefix { OnErr result
            (HoldsPart (followed_by (event_line e.now) (text_by F.Files self.old)) (held_by F.Files self.new)) }
        ensures cause { OnErr result (Rose (faults_by F.Files self.old) (faults_by F.Files self.new)) }
        ensures never_falls { faults_by F.Files self.old ≤ faults_by F.Files self.new }
        ensures grows { Grows (held_by F.Files self.old) (held_by F.Files self.new) }
        ensures others { Stays (other_by F.Files self.old) (other_by F.Files self.new) }
        ensures keeps { KeepsFiles F.Files self.old self.new }

        // The line is kept for the next piece, after the last one was appended where both don't fit into one.
        ensures exact { PutsLine F.Files self.old self.new result (event_line e.now) }
    {
        let mut bytes = [0; 24];
        let end = event_text(e, &mut bytes);
        bytes[end] = b'\n';
        self.put_line(&bytes[..end + 1])
    }

    fn close(&mut self) -> Result<(), Failed>
        ensures ok { OnOk result (Stays (text_by F.Files self.old) (text_by F.Files self.new)) }
        ensures none_kept { OnOk result (held_by F.Files self.new ≡ text_by F.Files self.new) }
        ensures prefix { OnErr result (HoldsPart (text_by F.Files self.old) (held_by F.Files self.new)) }
        ensures cause { OnErr result (Rose (faults_by F.Files self.old) (faults_by F.Files self.new)) }
        ensures never_falls { faults_by F.Files self.old ≤ faults_by F.Files self.new }
        ensures grows { Grows (held_by F.Files self.old) (held_by F.Files self.new) }
        ensures others { Stays (other_by F.Files self.old) (other_by F.Files self.new) }
        ensures keeps { KeepsFiles F.Files self.old self.new }

        // What is kept is the last piece.
        ensures exact { PutsLast F.Files self.old self.new result }
    {
        self.put_last()
    }

    ghost use Rattle.std.proofs.Common.{refl};
    ghost use Rattle.tss_log.specs.KeptFiles.{keeps_files_itself, keeps_files_then};

    ghost kept_after_held = { λ log. (log.kept, refl) };

    ghost keeps_itself = { λ log. keeps_files_itself log };

    ghost keeps_then = { λ a b c. keeps_files_then };
}
