//! The places where files stand: all that a command does with files.

ghost use Rattle.std.specs.Prelude.{◌≡◌, ◌≤◌, ◌++◌, ℕ, List, IfErr, IfOk, OnOk, length, min, string_bytes};
ghost use Rattle.std.specs.IoError.{error_kind};
ghost use Rattle.std.specs.Io.KnownBytes.{Appends};
ghost use Rattle.std.specs.declared.io.ErrorKind.{ErrorKind as Kind};
ghost use Rattle.sandbox_report.specs.Reporting.{report_text};
ghost use Rattle.sandbox_args.specs.Request.{Text};
ghost use Rattle.sandbox_device.specs.declared.ram_device.RamDevice.{RamDevice as RamDeviceValue};
ghost use Rattle.sandbox_telling.specs.Profiling.{IsProfile};
ghost use Rattle.sandbox_places.specs.Places.{Access, Cuts, HandsOut, HandsOver, HasRoom, Locks, Makes, Opens, Prints, Reads, Receives, lengthens};

use observed_run::{FuelProfile, Names};
use sandbox_device::{Hindrance, RamDevice};
use sandbox_report::Summary;
use std::alloc::Global;
use std::io;
use stream_answers::{Inlet, Outlet};
use vol_sector::Device;

/// Where files stand, each under a name.
///
/// A caller that is proved for all of these can show only by having asked that a file is that of a name, that a state follows
/// another one, that a file was refused, that a text was printed into the file of a name, that a volume was handed out, and that
/// what it had is at its end.
pub trait Places {
    /// A file that is read.
    type Input: Inlet + Drop;

    /// A file that is written.
    type Output: Outlet + Drop;

    /// A volume in a file.
    type Volume: Device + Drop;

    /// The second state is the first after this was asked for, with whatever answer.
    ghost asked: { Access → Self → Self → Type 0 };

    /// What was asked for between these states was refused, with an error of this kind.
    ghost refused: { Access → Kind → Self → Self → Type 0 };

    /// The file of this name, opened to read.
    ghost is_input: { Text → Self.Input → Type 0 };

    /// The file of this name, opened or made, which is written from its beginning.
    ghost is_output: { Text → Self.Output → Type 0 };

    /// A device of the file of this name, which is locked.
    ghost is_volume: { Text → Self.Volume → Type 0 };

    /// A device of the sectors of the file of this name.
    ghost is_image: { Text → RamDeviceValue → Type 0 };

    /// The text of the file of this name.
    ghost is_text: { Text → Text → Type 0 };

    /// The bytes of the file of this name, as many as were asked for at most.
    ghost is_beginning: { Text → ℕ → Text → Type 0 };

    /// Between these states this text was printed into the file of this name.
    ghost printed: { Text → Text → Self → Self → Type 0 };

    /// Between these states the file of this name got the sectors of this device.
    ghost handed_out: { Text → RamDeviceValue → Self → Self → Type 0 };

    /// Between these states the file of this name got these bytes, and no others.
    ghost handed_over: { Text → Text → Self → Self → Type 0 };

    /// Between these states this was given up as it is, so that nothing follows on it.
    ghost ended: { {X : Type 0} → X → Self → Self → Type 0 };

    /// Opens a file to read.
    fn open(&mut self, name: &str) -> io::Result<Self::Input>
        ensures asked { asked (Opens name.now) self.old self.new }
        ensures refused { IfErr result (λ error. refused (Opens name.now) (error_kind error)
            self.old self.new) }
        ensures input { IfOk result (λ file. is_input name.now file) };

    /// Opens a file to write, or makes it. What it had goes when it is first written.
    fn make(&mut self, name: &str) -> io::Result<Self::Output>
        ensures asked { asked (Makes name.now) self.old self.new }
        ensures refused { IfErr result (λ error. refused (Makes name.now) (error_kind error)
            self.old self.new) }
        ensures output { IfOk result (λ file. is_output name.now file) };

    /// Cuts a file to nothing that was made last under this name, and that has no other part in what is done.
    fn cut(&mut self, name: &str, file: Self::Output) -> io::Result<Self::Output>
        requires { is_output name.now file }
        ensures asked { asked (Cuts name.now) self.old self.new }
        ensures refused { IfErr result (λ error. refused (Cuts name.now) (error_kind error) self.old
            self.new) }
        ensures output { IfOk result (λ file. is_output name.now file) };

    /// Opens and locks the file of a volume, and reads its sectors.
    fn lock(&mut self, name: &str) -> io::Result<Self::Volume>
        ensures asked { asked (Locks name.now) self.old self.new }
        ensures refused { IfErr result (λ error. refused (Locks name.now) (error_kind error)
            self.old self.new) }
        ensures volume { IfOk result (λ device. is_volume name.now device) }
        ensures unused { IfOk result (λ device. Self.Volume.failures device ≡ 0) };

    /// Does the same with a file that is to be formatted: makes it, or lengthens it to these sectors, where that is needed. Where it is
    /// to be new, one that begins as a volume stays as it is.
    fn lengthen(&mut self, name: &str, sectors: u32, only_new: bool) -> io::Result<Self::Volume>
        ensures asked { asked (lengthens only_new name.now sectors) self.old self.new }
        ensures refused { IfErr result (λ error. refused (lengthens only_new name.now sectors)
            (error_kind error) self.old self.new) }
        ensures volume { IfOk result (λ device. is_volume name.now device) }
        ensures unused { IfOk result (λ device. Self.Volume.failures device ≡ 0) }
        ensures enough { IfOk result (λ device. HasRoom Self.Volume.size Self.Volume.disk only_new (min sectors 16777216) device) };

    /// Reads the whole sectors of a file, 65,536 at most, or 16,777,216 where it begins as a volume of version 4, and writes nothing
    /// to it.
    fn image(&mut self, name: &str) -> io::Result<RamDevice>
        ensures asked { asked (Reads name.now) self.old self.new }
        ensures refused { IfErr result (λ error. refused (Reads name.now) (error_kind error)
            self.old self.new) }
        ensures image { IfOk result (λ device. is_image name.now device) }
        ensures few { IfOk result (λ device. length device.sectors ≤ 16777216) };

    /// Reads the text of a file.
    fn text(&mut self, name: &str) -> io::Result<String>
        ensures asked { asked (Reads name.now) self.old self.new }
        ensures refused { IfErr result (λ error. refused (Reads name.now) (error_kind error)
            self.old self.new) }
        ensures text { IfOk result (λ text. is_text name.now (string_bytes text)) };

    /// Reads the bytes of a file, or this many where it has more.
    fn bytes(&mut self, name: &str, most: u64) -> io::Result<Vec<u8>>
        ensures asked { asked (Reads name.now) self.old self.new }
        ensures refused { IfErr result (λ error. refused (Reads name.now) (error_kind error)
            self.old self.new) }
        ensures bytes { IfOk result (λ bytes. is_beginning name.now most bytes.items) };

    /// Opens and locks what gets a volume, or the tree of one, at the end.
    fn receive(&mut self, name: &str) -> io::Result<()>
        ensures asked { asked (Receives name.now) self.old self.new }
        ensures refused { IfErr result (λ error. refused (Receives name.now) (error_kind error) self.old self.new) };

    /// Gives the sectors of a device to what was opened so. Where that could be done in place alone, it says why.
    fn hand_out(&mut self, name: &str, device: &RamDevice) -> io::Result<Option<Hindrance>>
        ensures asked { asked (HandsOut name.now) self.old self.new }
        ensures refused { IfErr result (λ error. refused (HandsOut name.now) (error_kind error)
            self.old self.new) }
        ensures handed { OnOk result (handed_out name.now device.now self.old self.new) };

    /// Gives these bytes to what was opened so, in the same way.
    fn hand_over(&mut self, name: &str, bytes: &[u8]) -> io::Result<Option<Hindrance>>
        ensures asked { asked (HandsOver name.now) self.old self.new }
        ensures refused { IfErr result (λ error. refused (HandsOver name.now) (error_kind error)
            self.old self.new) }
        ensures handed { OnOk result (handed_over name.now bytes.now self.old self.new) };

    /// Prints a report, and further lines of it, into a file that was made under this name. Where that fails, some of it may have been
    /// printed.
    fn print(
        &mut self,
        name: &str,
        file: &mut Self::Output,
        summary: &Summary,
        lines: &[u8],
    ) -> io::Result<()>
        requires { is_output name.now file.old }
        ensures asked { asked (Prints name.now) self.old self.new }
        ensures refused { IfErr result (λ error. refused (Prints name.now) (error_kind error)
            self.old self.new) }
        ensures printed { OnOk result (printed name.now (report_text summary.now ++ lines.now)
            self.old self.new) }
        ensures tells { OnOk result
            (Appends (Self.Output.contents file.old) (Self.Output.contents file.new) (report_text summary.now ++ lines.now)) };

    /// Prints a profile into a file that was made under this name, with these names of its functions. Where that fails, some of it may
    /// have been printed.
    fn print_profile<N: Names>(
        &mut self,
        alloc: Global,
        name: &str,
        file: &mut Self::Output,
        stacks: &FuelProfile,
        names: &N,
    ) -> io::Result<()>
        requires { is_output name.now file.old }
        ensures asked { asked (Prints name.now) self.old self.new }
        ensures refused { IfErr result (λ error. refused (Prints name.now) (error_kind error)
            self.old self.new) }
        ensures printed { OnOk result ((text : Text) × IsProfile (N.text names.now) stacks.now text × printed name.now text self.old self.new
            × Appends (Self.Output.contents file.old) (Self.Output.contents file.new) text) };

    /// Gives up what a command had, as it is: nothing more is read, written or changed with it.
    fn end<X: Drop>(&mut self, it: X)
        ensures { ended it self.old self.new };

    /// The name of the first file that was refused, as far as it is known. Nothing but words depends on it.
    fn first_refused(&self) -> Option<&str>;
}
