//! The files of the system, as a command holds them.

ghost use Rattle.std.specs.Prelude.{◌≡◌, ◌≤◌, ◌++◌, IfOk, Ok, OnOk, false, length, min, string_bytes};
ghost use Rattle.sandbox_device.specs.Contents.{bytes_of};
ghost use Rattle.sandbox_device.specs.FileEvidence.{WasLocked};
ghost use Rattle.sandbox_device.specs.Named.{WasOpened};
ghost use Rattle.sandbox_device.specs.Ram.{joined_sectors};
ghost use Rattle.sandbox_report.specs.Reporting.{report_text};
ghost use Rattle.sandbox_args.specs.Request.{Text};
ghost use Rattle.sandbox_places.specs.FileDisks.{file_disk};
ghost use Rattle.sandbox_telling.specs.Profiling.{IsProfile};
ghost use Rattle.sandbox_places.specs.Places.{HasRoom, WasEnded, WasRefused};
ghost use Rattle.stream_answers.specs.Printing.{IsPrinted};
ghost use Rattle.sandbox_places.specs.System.{IsImageOfName, IsOutput, IsRead, IsVolume, WasGiven, WasPrinted};

use crate::clashing::clashes;
use crate::host_volume::HostVolume;
use crate::places::Places;
use crate::possession::{HeldFiles, refuse_errors, refuse_errors_of};
use crate::reading::read_whole;
use crate::receiver::Receiver;
use observed_run::{FuelProfile, Names};
use sandbox_args::{Invocation, Run};
use sandbox_device::{
    Contents, FileDevice, FileOutput, Hindrance, Identity, RamDevice, open_image, open_to_read,
};
use sandbox_report::{Printed, Summary};
use std::alloc::Global;
use std::fs::File;
use std::io::{ErrorKind, Write};
use std::{fs, io};
use stream_answers::{Outlet, print_all};
use vol_commands::MAGIC;

/// The most bytes of a list of tests.
const LIST_READ: u64 = 67_108_864;

/// The files of the system, and which of them are held.
#[derive(Drop)]
pub struct HostPlaces<'a> {
    rt: &'a HostRuntime,
    held: HeldFiles,
    /// Files that are read later, held open until then.
    ahead: Vec<File>,
    /// What gets a volume, or the tree of one, at the end.
    receiver: Option<Receiver>,
    /// Why the first file that is asked for is refused, whatever it is.
    refused: Option<ErrorKind>,
    /// The name of the first file that was refused, for who is told of it.
    first_refused: Option<String>,
}

/// The volume of a file that is lengthened to these sectors, but where it is to be new and begins as a volume.
fn volume_in(
    alloc: Global,
    name: &str,
    file: File,
    sectors: u32,
    only_new: bool,
) -> io::Result<HostVolume>
    requires { WasOpened name.now file × WasLocked file }
    ensures volume { IfOk result (IsVolume name.now) }
    ensures unused { IfOk result (λ d. d.device.failures ≡ 0) }
    ensures enough { IfOk result (λ d. HasRoom (λ it. length it.device.sectors) file_disk only_new
        (min sectors 16777216) d) }
{
    if only_new {
        let kept = FileDevice::lengthened_unless(alloc, file, sectors, &MAGIC)?;
        return Ok(HostVolume { device: kept });
    }
    let device = FileDevice::lengthened(alloc, file, sectors)?;
    Ok(HostVolume { device })
}

/// The text that has these bytes.
fn text_in(bytes: Vec<u8>) -> io::Result<String>
    ensures { IfOk result (λ text. string_bytes text ≡ bytes.items) }
{
    match String::from_utf8(bytes) {
        Ok(text) => Ok(text),
        Err(_) => Err(io::Error::from(ErrorKind::InvalidData)),
    }
}

impl<'a> HostPlaces<'a> {
    /// The files of the system for an invocation, none of which is open but an image that all tests of a list read.
    pub fn of(rt: &'a HostRuntime, invocation: &Invocation<'_>) -> HostPlaces<'a> {
        let held = match invocation {
            Invocation::Run(run) => HeldFiles::for_run(rt, run),
            _ => HeldFiles::new(rt),
        };
        let mut places = HostPlaces {
            rt,
            held,
            ahead: Vec::new(rt.alloc()),
            receiver: None,
            refused: None,
            first_refused: None,
        };
        if let Err(error) = places.look_ahead(invocation) {
            places.refused = Some(error.kind());
        }
        places
    }

    /// Refuses names that the command's own lines would go into. Words that don't go together open no file.
    fn look_ahead(&mut self, invocation: &Invocation<'_>) -> io::Result<()> {
        if clashes(invocation) {
            return Ok(());
        }
        match invocation {
            Invocation::Run(run) => self.look_ahead_of(run),
            Invocation::Inspect { module, .. } => refuse_errors(self.rt, module),
            Invocation::Format { file, .. } => refuse_errors(self.rt, file),
            Invocation::Volume { file, .. } => refuse_errors(self.rt, file),
            Invocation::Import { file, .. } => refuse_errors(self.rt, file),
            Invocation::Export { file, .. } => refuse_errors(self.rt, file),
        }
    }

    fn look_ahead_of(&mut self, run: &Run<'_>) -> io::Result<()> {
        refuse_errors_of(self.rt, run)?;
        match (run.tests, run.image) {
            (Some(_), Some(image)) => self.hold(image),
            _ => Ok(()),
        }
    }

    /// Holds a regular file that will be read. What can't be opened is refused when it is read.
    fn hold(&mut self, name: &str) -> io::Result<()> {
        if Identity::of_path(self.rt, name).is_none() {
            return Ok(());
        }
        if let Ok(file) = open_to_read(self.rt, name) {
            self.held.take_source(&file)?;
            self.ahead.push(file)?;
        }
        Ok(())
    }

    /// Notes the name of a file, where it is the first one that is refused.
    fn note<T>(&mut self, name: &str, done: &io::Result<T>) {
        if done.is_err() && self.first_refused.is_none() {
            self.first_refused = String::from_str(self.rt.alloc(), name).ok();
        }
    }

    /// Says of a file that is refused since it is locked whether it is this command that has it.
    fn or_twice<T: Drop>(&self, name: &str, done: io::Result<T>) -> io::Result<T>
        ensures { IfOk result (λ it. done ≡ Ok it) }
    {
        match done {
            Err(error) if error.kind() == ErrorKind::WouldBlock && self.has(name) => {
                Err(io::Error::from(ErrorKind::ResourceBusy))
            }
            done => done,
        }
    }

    /// Whether the command has a file open under this name or another.
    fn has(&self, name: &str) -> bool {
        match Identity::of_path(self.rt, name) {
            Some(it) => self.held.is_used(it),
            None => false,
        }
    }

    /// Refuses what is asked for first, if so.
    fn go_on(&mut self) -> io::Result<()> {
        match self.refused.take() {
            Some(kind) => Err(io::Error::from(kind)),
            None => Ok(()),
        }
    }

    fn locked(&mut self, name: &str) -> io::Result<HostVolume>
        ensures volume { IfOk result (IsVolume name.now) }
        ensures unused { IfOk result (λ d. d.device.failures ≡ 0) }
    {
        self.go_on()?;
        let file = FileDevice::lock(self.rt, name)?;
        self.held.take_volume(Identity::of(&file)?)?;
        let device = FileDevice::of(self.rt.alloc(), file)?;
        Ok(HostVolume { device })
    }

    fn lengthened(&mut self, name: &str, sectors: u32, only_new: bool) -> io::Result<HostVolume>
        ensures volume { IfOk result (IsVolume name.now) }
        ensures unused { IfOk result (λ d. d.device.failures ≡ 0) }
        ensures enough { IfOk result (λ d. HasRoom (λ it. length it.device.sectors) file_disk
            only_new (min sectors 16777216) d) }
    {
        self.go_on()?;
        let file = FileDevice::lock_or_make(self.rt, name)?;
        self.held.take_volume(Identity::of(&file)?)?;
        volume_in(self.rt.alloc(), name, file, sectors, only_new)
    }

    /// Opens what gets a volume at the end, which may be the image, or the tree of one.
    fn received(&mut self, name: &str) -> io::Result<()> {
        let receiver = self.or_twice(name, Receiver::open(self.rt, name))?;
        self.held.take_volume(receiver.file.identity()?)?;
        self.receiver = Some(receiver);
        Ok(())
    }

    /// Replaces what was opened so, under this name.
    fn replaced(&mut self, name: &str, contents: Contents<'_>) -> io::Result<Option<Hindrance>>
        ensures { OnOk result (WasGiven name.now (bytes_of contents.entry)) }
    {
        let Some(receiver) = self.receiver.take() else {
            return Err(io::Error::from(ErrorKind::NotFound));
        };
        if receiver.name.as_str() != name {
            return Err(io::Error::from(ErrorKind::NotFound));
        }
        receiver.file.fill(self.rt, contents)
    }

    fn opened(&mut self, name: &str) -> io::Result<File>
        ensures { IfOk result (WasOpened name.now) }
    {
        let file = self.or_twice(name, open_to_read(self.rt, name))?;
        if file.metadata()?.is_dir() {
            return Err(io::Error::from(ErrorKind::IsADirectory));
        }
        self.held.take_input(&file)?;
        Ok(file)
    }

    fn made(&mut self, name: &str) -> io::Result<FileOutput>
        ensures uncut { IfOk result (λ it. it.on.is_cut ≡ false) }
        ensures named { IfOk result (IsOutput name.now) }
    {
        self.held.contest(Identity::of_path(self.rt, name))?;
        let file = self.or_twice(name, FileOutput::open(self.rt, name))?;
        self.held.take_output(&file)?;
        Ok(file)
    }

    /// Whether a file that was made last is what gets the volume at the end.
    fn is_receiver(&self, file: &FileOutput) -> bool {
        match &self.receiver {
            Some(receiver) => {
                let it = receiver.file.identity_now(self.rt);
                match file.identity() {
                    Ok(found) => it.is_some() && it == found,
                    Err(_) => true,
                }
            }
            None => false,
        }
    }

    /// Cuts a file that was made last. One that gets the volume is refused, and goes if it is new.
    fn cut_apart(&mut self, name: &str, file: FileOutput) -> io::Result<FileOutput>
        requires { IsOutput name.now file }
        ensures { IfOk result (IsOutput name.now) }
    {
        let mut file = file;
        if self.is_receiver(&file) {
            if file.is_new() {
                let _ = fs::remove_file(self.rt, name);
            }
            return Err(io::Error::from(ErrorKind::ResourceBusy));
        }
        file.cut()?;
        Ok(file)
    }

    fn sectors_of(&mut self, name: &str) -> io::Result<RamDevice>
        ensures few { IfOk result (λ device. length device.sectors ≤ 16777216) }
        ensures image { IfOk result (IsImageOfName name.now) }
    {
        let file = open_image(self.rt, name)?;
        self.held.take_image(&file)?;
        RamDevice::of_file(self.rt.alloc(), &file)
    }

    /// A file that is read whole. It has a part in what is done, even where all is refused.
    fn source(&mut self, name: &str) -> io::Result<File>
        ensures { IfOk result (WasOpened name.now) }
    {
        let file = open_to_read(self.rt, name);
        let taken = match &file {
            Ok(file) => self.held.take_source(file),
            Err(_) => Ok(()),
        };
        self.go_on()?; // it says whether a line may be printed at all, so it comes first
        taken?;
        file
    }

    /// The text of a file. One that has too many bytes is refused.
    fn text_of(&mut self, name: &str) -> io::Result<String>
        ensures { IfOk result (λ text. IsRead name.now 67108865 (string_bytes text)) }
    {
        let bytes = self.bytes_of(name, LIST_READ + 1)?;
        if bytes.len() as u64 > LIST_READ {
            return Err(io::Error::from(ErrorKind::FileTooLarge));
        }
        text_in(bytes)
    }

    fn bytes_of(&mut self, name: &str, most: u64) -> io::Result<Vec<u8>>
        ensures { IfOk result (λ bytes. IsRead name.now most bytes.items) }
    {
        let mut file = self.source(name)?;
        let expected = file.metadata()?.len().min(most) as usize;
        read_whole(self.rt.alloc(), &mut file, most, expected)
    }

    /// Prints a report into a file that has no other part in its line, and ends the line.
    fn print_apart(
        &mut self,
        name: &str,
        file: &mut FileOutput,
        summary: &Summary,
        lines: &[u8],
    ) -> io::Result<()>
        requires { IsOutput name.now file.old }
        ensures { OnOk result (WasPrinted name.now (report_text summary.now ++ lines.now)) }
    {
        let report = match file.identity() {
            Ok(it) if self.held.is_apart(it) => it,
            _ => {
                self.held.end_line(None, summary)?;
                return Err(io::Error::from(ErrorKind::ResourceBusy));
            }
        };
        self.held.end_line(report, summary)?;
        print_report(file, summary, lines)
    }
}

/// Prints a report, and further lines of it.
fn print_report<W: Outlet>(out: &mut W, summary: &Summary, lines: &[u8]) -> io::Result<()>
    ensures { OnOk result (IsPrinted W.took W.contents out.old
        (report_text summary.now ++ lines.now) out.new) }
{
    summary.print(out)?;
    print_all(out, lines)
}

/// Prints a profile, also one that has no line: then its file is cut.
fn print_stacks<N: Names>(
    alloc: Global,
    name: &str,
    file: &mut FileOutput,
    stacks: &FuelProfile,
    names: &N,
) -> io::Result<()>
    requires { IsOutput name.now file.old }
    ensures { OnOk result ((text : Text) × IsProfile (N.text names.now) stacks.now text
        × WasPrinted name.now text) }
{
    stacks.print(alloc, names, file)?;
    file.flush()
}

impl<'a> Places for HostPlaces<'a> {
    type Input = File;

    type Output = FileOutput;

    type Volume = HostVolume;

    ghost asked = { λ access before after. Unit {0} };

    ghost refused = { λ access kind before after. WasRefused access kind };

    ghost is_input = { WasOpened };

    ghost is_output = { IsOutput };

    ghost is_volume = { IsVolume };

    ghost is_image = { IsImageOfName };

    ghost is_text = { λ name text. IsRead name 67108865 text };

    ghost is_beginning = { IsRead };

    ghost printed = { λ name text before after. WasPrinted name text };

    ghost handed_out = { λ name device before after. WasGiven name (joined_sectors device.sectors) };

    ghost handed_over = { λ name bytes before after. WasGiven name bytes };

    ghost ended = { λ {X} it before after. WasEnded it };

    fn open(&mut self, name: &str) -> io::Result<File> {
        let done = self.opened(name);
        self.note(name, &done);
        done
    }

    fn make(&mut self, name: &str) -> io::Result<FileOutput> {
        let done = self.made(name);
        self.note(name, &done);
        done
    }

    fn cut(&mut self, name: &str, file: FileOutput) -> io::Result<FileOutput> {
        let done = self.cut_apart(name, file);
        self.note(name, &done);
        done
    }

    fn lock(&mut self, name: &str) -> io::Result<HostVolume> {
        let done = self.locked(name);
        self.note(name, &done);
        done
    }

    fn lengthen(&mut self, name: &str, sectors: u32, only_new: bool) -> io::Result<HostVolume> {
        let done = self.lengthened(name, sectors, only_new);
        self.note(name, &done);
        done
    }

    fn image(&mut self, name: &str) -> io::Result<RamDevice> {
        let done = self.sectors_of(name);
        self.note(name, &done);
        done
    }

    fn text(&mut self, name: &str) -> io::Result<String> {
        let done = self.text_of(name);
        self.note(name, &done);
        done
    }

    fn bytes(&mut self, name: &str, most: u64) -> io::Result<Vec<u8>> {
        let done = self.bytes_of(name, most);
        self.note(name, &done);
        done
    }

    fn receive(&mut self, name: &str) -> io::Result<()> {
        let done = self.received(name);
        self.note(name, &done);
        done
    }

    fn hand_out(&mut self, name: &str, device: &RamDevice) -> io::Result<Option<Hindrance>> {
        self.replaced(name, Contents::Sectors(device))
    }

    fn hand_over(&mut self, name: &str, bytes: &[u8]) -> io::Result<Option<Hindrance>> {
        self.replaced(name, Contents::Bytes(bytes))
    }

    fn print(
        &mut self,
        name: &str,
        file: &mut FileOutput,
        summary: &Summary,
        lines: &[u8],
    ) -> io::Result<()> {
        self.print_apart(name, file, summary, lines)
    }

    fn print_profile<N: Names>(
        &mut self,
        alloc: Global,
        name: &str,
        file: &mut FileOutput,
        stacks: &FuelProfile,
        names: &N,
    ) -> io::Result<()> {
        print_stacks(alloc, name, file, stacks, names)
    }

    fn end<X: Drop>(&mut self, it: X) {
        drop(it);
    }

    fn first_refused(&self) -> Option<&str> {
        match &self.first_refused {
            Some(name) => Some(name.as_str()),
            None => None,
        }
    }
}
