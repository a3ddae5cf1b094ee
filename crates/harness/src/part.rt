// The parts that the words can name.
use crate::script::Asked as Script;
use crate::{images, script, session};
use std::io::{self, Read};
use std::rt::Runtime;
use std::sync::Wait;
use std::thread::Threads;
use threads_run::Asked as Sharing;

/// What is run.
#[derive(Clone, Copy)]
pub(crate) enum Part<'a> {
    /// Rows of flows.
    Flows,
    /// Rows of images.
    Images,
    /// Request lines.
    Session,
    /// A script.
    Script(Script<'a>),
    /// Threads that share a store. They take no input.
    Sharing(Sharing),
}

impl<'a> Part<'a> {
    /// What the words ask for; none if they name no part.
    pub(crate) fn read(words: &[&'a str]) -> Option<Part<'a>> {
        match *words {
            ["flows"] => Some(Part::Flows),
            ["images"] => Some(Part::Images),
            ["session"] => Some(Part::Session),
            _ => Part::of_a_store(words),
        }
    }

    fn of_a_store(words: &[&'a str]) -> Option<Part<'a>> {
        if let Some(sharing) = Sharing::read(words) {
            return Some(Part::Sharing(sharing));
        }
        Some(Part::Script(Script::read(words)?))
    }

    /// Runs it, and gives the status. An error is one of the input or the output.
    pub(crate) fn run<R: Runtime + Threads + Wait + Sync, I: Read>(
        self,
        rt: &R,
        files: &HostRuntime,
        reader: &mut I,
    ) -> io::Result<u8> {
        let alloc = files.alloc();
        let mut writer = io::writer(files);
        match self {
            Part::Flows => flow_rows::run(alloc, reader, &mut writer)?,
            Part::Images => images::run(alloc, reader, &mut writer)?,
            Part::Session => session::run(alloc, reader, &mut writer)?,
            Part::Script(asked) => return Ok(script::run(files, asked, reader, &mut writer)),
            Part::Sharing(asked) => return Ok(threads_run::run(rt, alloc, asked)),
        }
        Ok(0)
    }
}
