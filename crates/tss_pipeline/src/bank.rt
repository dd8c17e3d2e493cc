// A bank of the tables for renaming and versioning, with its copy engine.
ghost use Rattle.std.specs.Prelude.{◌≡◌, IsSome, None, Some, option_map};
ghost use Rattle.std.specs.FinMap as map;
ghost use Rattle.tss_pipeline.specs.Registering.{is_home, CanBringHome, BringsHome};
ghost use Rattle.tss_pipeline.specs.Pieces.{CopiesWithin, IsPieceOf, gone_with};
ghost use Rattle.tss_pipeline.specs.BankParts.{copy_shown, job_told};
ghost use Rattle.tss_pipeline.specs.Emptiness.{is_empty};
ghost use Rattle.tss_pipeline.specs.Fit.{IsEngaged};

use std::mem;
use tss_base::{OpName, Range, Storage};
use tss_buffers::{CopyEngine, Moved};
use tss_events::{Gone, HeldBuffer};
use tss_renaming::Renaming;
use tss_tokens::Token;
use tss_versions::Versions;

/// What a bank copies home: a version that has retired, its object, the token of its place, and the name of its buffer,
/// whose token the copy engine has.
pub(crate) struct Job {
    pub(crate) version: OpName,
    pub(crate) object: Range,
    pub(crate) place: Token,
    pub(crate) buffer: OpName,
}

/// A piece of a copy: the place of its buffer, where it begins there and in memory, its length, and after the last piece
/// that the version is gone.
pub(crate) struct Piece {
    pub(crate) place: u32,
    pub(crate) from: u32,
    pub(crate) to: u32,
    pub(crate) len: u32,
    pub(crate) gone: Option<Gone>,
}

/// A bank: its renaming table, its versioning table, and its copy engine with what it copies.
pub(crate) struct Bank {
    pub(crate) renaming: Renaming,
    pub(crate) versions: Versions,
    pub(crate) engine: CopyEngine,
    pub(crate) job: Option<Job>,
}

impl Bank {
    /// Whether a version lies at home.
    pub(crate) fn is_home(&self, v: OpName) -> bool
        ensures { result ≡ is_home (map.get self.now.versions.versions v) }
    {
        match self.versions.version(v) {
            Some(version) => match version.storage {
                Some(Storage::Home) => true,
                Some(Storage::Buffer(_, _)) => false,
                None => false,
            },
            None => false,
        }
    }

    /// Begins to copy a version that has retired home, where its value lies in a buffer. Else it is gone at once.
    pub(crate) fn bring_home(&mut self, gone: Gone) -> Option<Gone>
        requires { CanBringHome self.old gone.buffer }
        ensures { BringsHome self.old gone gone.buffer result self.new }
    {
        let Gone {
            version,
            object,
            place,
            buffer,
            retired,
        } = gone;
        let Some(HeldBuffer { name, token }) = buffer else {
            return Some(Gone {
                version,
                object,
                place,
                buffer: None,
                retired,
            });
        };
        match self.engine.start(token, object) {
            Ok(()) => {}
            Err(_) => unreachable!(),
        }
        let job = Job {
            version,
            object,
            place,
            buffer: name,
        };
        match mem::replace(&mut self.job, Some(job)) {
            None => {}
            Some(_) => unreachable!(),
        }
        None
    }

    /// The next piece of what the bank copies: where it begins in the buffer and in memory, its length, and after the
    /// last piece that the version is gone.
    pub(crate) fn next_piece(&mut self) -> Piece
        requires { CopiesWithin self.old.engine self.old.job }
        ensures { IsPieceOf self.old self.old.engine self.old.job result self.new }
    {
        let object = match &self.job {
            Some(job) => job.object,
            None => unreachable!(),
        };
        let Moved {
            place,
            at,
            len,
            last,
        } = match self.engine.advance() {
            Ok(moved) => moved,
            Err(_) => unreachable!(),
        };
        let gone = match last {
            Some(token) => Some(self.end_job(token)),
            None => None,
        };
        Piece {
            place,
            from: at,
            to: object.base + at,
            len,
            gone,
        }
    }

    /// The copy is over: the version is gone, with its buffer.
    fn end_job(&mut self, token: Token) -> Gone
        requires { IsSome self.old.job }
        ensures exact { option_map (λ j. gone_with j token) self.old.job ≡ Some result }
        ensures left { self.new ≡ record self.old { job = None } }
    {
        match self.job.take() {
            Some(
                Job {
                    version,
                    object,
                    place,
                    buffer,
                },
            ) => Gone {
                version,
                object,
                place,
                buffer: Some(HeldBuffer {
                    name: buffer,
                    token,
                }),
                retired: true,
            },
            None => unreachable!(),
        }
    }

    /// Whether nothing is in the bank.
    pub(crate) fn is_empty(&self) -> bool
        ensures { result ≡ is_empty self.now }
    {
        self.renaming.entries() == 0
            && self.renaming.places() == 0
            && self.renaming.buffers() == 0
            && self.versions.count() == 0
            && self.job.is_none()
    }

    /// What the bank copies home: the version, its object, and the place of its buffer.
    pub(crate) fn copy(&self) -> Option<(OpName, Range, u32)>
        requires { IsEngaged self.now.renaming self.now.engine self.now.job }
        ensures { option_map copy_shown result ≡ option_map job_told self.now.job }
    {
        match &self.job {
            Some(job) => match self.renaming.buffer(job.buffer) {
                Some(place) => Some((job.version, job.object, place)),
                None => unreachable!(),
            },
            None => None,
        }
    }

    /// The name of the buffer that the bank copies home.
    pub(crate) fn copied_buffer(&self) -> Option<OpName>
        ensures { result ≡ option_map (λ j. j.buffer) self.now.job }
    {
        match &self.job {
            Some(job) => Some(job.buffer),
            None => None,
        }
    }

    /// Ends a bank with nothing in it.
    pub(crate) fn close_empty(self)
        requires versions { self.versions.versions ≡ map.empty }
        requires engine { self.engine ≡ None }
        requires job { self.job ≡ None }
    {
        let Bank {
            renaming,
            versions,
            engine,
            job,
        } = self;
        let (places, buffers) = renaming.close();
        versions.close(&places, &buffers);
        match (engine.close(), job) {
            (None, None) => {}
            _ => unreachable!(),
        }
    }
}
