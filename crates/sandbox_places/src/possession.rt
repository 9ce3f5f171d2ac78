//! The files that a command has open, so that none which it writes has a second part in it, by whatever name.

use sandbox_args::Run;
use sandbox_device::{FileOutput, Identity};
use sandbox_report::{End, Summary};
use std::alloc::Global;
use std::collections::BTreeSet;
use std::fs::File;
use std::io;
use std::io::ErrorKind;

/// Which files a command reads and writes. In a list of tests a line has files of its own, beside those of the whole list.
///
/// Files that are only read may be the same. Pipes, terminals and devices are no files here.
#[derive(Drop)]
pub struct HeldFiles {
    /// The streams that the command was given, where it uses them: its input, its output and its errors.
    streams: [Option<Identity>; 3],
    /// What the whole command reads.
    sources: Vec<Identity>,
    /// The image, which is given back once it is read.
    image: Option<Identity>,
    /// What the run gives at the end is a tree, which takes the place of no image.
    gives_tree: bool,
    /// What this line reads.
    input: Option<Identity>,
    /// What this line writes.
    outputs: Vec<Identity>,
    /// What the lines before it have written.
    earlier: BTreeSet<Identity>,
    /// What was refused to this line because it has another part in it.
    contested: Vec<Identity>,
}

/// Whether the error is that of a file which the command's own lines would go into: then none is printed.
pub fn is_silent(error: &io::Error) -> bool {
    error.kind() == ErrorKind::Deadlock
}

/// Refuses a file that the command's own lines would go into, whatever else is wrong with it.
pub fn refuse_errors(rt: &HostRuntime, path: &str) -> io::Result<()> {
    let errors = Identity::of_errors(rt);
    if errors.is_some() && errors == Identity::of_path(rt, path) {
        return Err(io::Error::from(ErrorKind::Deadlock));
    }
    Ok(())
}

/// Refuses a run one of whose files the command's own lines would go into.
pub fn refuse_errors_of(rt: &HostRuntime, run: &Run<'_>) -> io::Result<()> {
    let named = [
        Some(run.module),
        run.random,
        run.image,
        run.image_from,
        run.volume,
        run.volume_out,
        run.out_to,
        run.stdin,
        run.stdout,
        run.stderr,
        run.report,
        run.profile,
        run.tests,
    ];
    for path in named.iter().flatten() {
        refuse_errors(rt, path)?;
    }
    Ok(())
}

impl HeldFiles {
    /// Nothing but the streams that the command was given.
    pub fn new(rt: &HostRuntime) -> HeldFiles {
        HeldFiles {
            streams: Identity::of_streams(rt),
            sources: Vec::new(rt.alloc()),
            image: None,
            gives_tree: false,
            input: None,
            outputs: Vec::new(rt.alloc()),
            earlier: BTreeSet::new(rt.alloc()),
            contested: Vec::new(rt.alloc()),
        }
    }

    /// The same for a run, which doesn't use a stream that it has a file for.
    pub fn for_run(rt: &HostRuntime, run: &Run<'_>) -> HeldFiles {
        let mut held = HeldFiles::new(rt);
        held.gives_tree = run.out_to.is_some();
        if run.stdin.is_some() {
            held.streams[0] = None;
        }
        if run.stdout.is_some() {
            held.streams[1] = None;
        }
        held
    }

    /// Whether a file is written, by this line or through a stream.
    fn is_written(&self, it: Identity) -> bool {
        self.streams[1] == Some(it) || self.streams[2] == Some(it) || self.outputs.contains(&it)
    }

    /// Whether a file has any part in this line but that of the image.
    pub fn is_used(&self, it: Identity) -> bool {
        self.is_written(it)
            || self.streams[0] == Some(it)
            || self.input == Some(it)
            || self.sources.contains(&it)
    }

    fn is_image(&self, it: Identity) -> bool {
        self.image == Some(it)
    }

    /// Whether a line before this one has written a file.
    fn is_earlier(&self, it: Identity) -> bool {
        self.earlier.contains(&it)
    }

    /// Refuses a file where it has another part.
    fn refuse_where(&mut self, is_other: bool, it: Identity) -> io::Result<()> {
        if is_other {
            self.contested.push(it)?;
            return Err(io::Error::from(ErrorKind::ResourceBusy));
        }
        Ok(())
    }

    /// Takes a file that the whole command reads.
    pub fn take_source(&mut self, file: &File) -> io::Result<()> {
        let Some(it) = Identity::of(file)? else {
            return Ok(());
        };
        self.refuse_where(self.is_written(it), it)?;
        if !self.sources.contains(&it) {
            self.sources.push(it)?;
        }
        Ok(())
    }

    /// Takes the file of an image.
    pub fn take_image(&mut self, file: &File) -> io::Result<()> {
        let Some(it) = Identity::of(file)? else {
            return Ok(());
        };
        self.image = Some(it);
        self.refuse_where(self.is_written(it), it)
    }

    /// Takes a file that this line reads.
    pub fn take_input(&mut self, file: &File) -> io::Result<()> {
        let Some(it) = Identity::of(file)? else {
            return Ok(());
        };
        self.refuse_where(self.is_written(it), it)?;
        self.input = Some(it);
        Ok(())
    }

    /// Notes a file that is to be written where it has another part in this line: its own lock refuses it before it is taken.
    pub fn contest(&mut self, it: Option<Identity>) -> io::Result<()> {
        if let Some(it) = it {
            if self.is_used(it) {
                self.contested.push(it)?;
            }
        }
        Ok(())
    }

    /// Takes a file that this line writes, and that no line before it has written, unless it is new.
    pub fn take_output(&mut self, file: &FileOutput) -> io::Result<()> {
        let Some(it) = file.identity()? else {
            return Ok(());
        };
        let is_old = !file.is_new() && self.is_earlier(it);
        self.refuse_where(is_old || self.is_image(it), it)?;
        self.take_written(it)
    }

    /// Takes the file of a volume that is written, or one that gets a volume, which may be the image, or a tree.
    pub fn take_volume(&mut self, it: Option<Identity>) -> io::Result<()> {
        match it {
            Some(it) => {
                self.refuse_where(self.gives_tree && self.is_image(it), it)?;
                self.take_written(it)
            }
            None => Ok(()),
        }
    }

    fn take_written(&mut self, it: Identity) -> io::Result<()> {
        self.refuse_where(self.is_used(it), it)?;
        self.outputs.push(it)?;
        Ok(())
    }

    /// Whether a file was refused to no other part of this line.
    pub fn is_apart(&self, it: Option<Identity>) -> bool {
        match it {
            Some(it) => !self.contested.contains(&it),
            None => true,
        }
    }

    /// Ends a line of which this is to be told, in this report if it has one: where no guest ran, the line wrote no more.
    pub fn end_line(&mut self, report: Option<Identity>, summary: &Summary) -> io::Result<()> {
        self.keep_written(report, matches!(summary.end, End::Ran(_)))?;
        self.input = None;
        self.outputs.clear();
        self.contested.clear();
        Ok(())
    }

    fn keep_written(&mut self, report: Option<Identity>, has_run: bool) -> io::Result<()> {
        for it in &self.outputs {
            if has_run || report == Some(*it) {
                let _ = self.earlier.insert(*it)?;
            }
        }
        Ok(())
    }
}
