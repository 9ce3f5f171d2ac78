//! What a handle has.

ghost use Rattle.std.specs.Prelude.{◌≡◌, length};
ghost use Rattle.sandbox_host.specs.Sessions.{stream, is_filled};

use crate::host_plugin::HostPlugin;
use crate::instance::{Living, SessionLeft};
use crate::kept::KeptOutput;
use crate::modules::LoadedModule;
use crate::session::HostSession;
use crate::showing::show_sectors;
use sandbox_device::RecordedDevice;
use sandbox_inspect::ModuleBytes;
use vol_sector::{Device, Sector};

/// A session that isn't finished.
#[derive(Drop)]
pub struct OpenSession {
    pub session: HostSession,
    pub bytes: ModuleBytes<'static>,
}

/// What a finished session leaves.
#[derive(Drop)]
pub struct Ended {
    pub loaded: LoadedModule,
    pub bytes: ModuleBytes<'static>,
    pub device: RecordedDevice,
    pub out: KeptOutput,
    pub err: KeptOutput,
}

/// Of what was written to descriptor 1 and to 2, that of this descriptor.
fn stream<'a>(out: &'a KeptOutput, err: &'a KeptOutput, descriptor: u32) -> &'a [u8]
    ensures { result.now ≡ stream out.now err.now descriptor }
{
    match descriptor {
        1 => out.bytes.as_slice(),
        2 => err.bytes.as_slice(),
        _ => &[],
    }
}

/// Whether a write to that descriptor was refused since it has as many bytes as are allowed.
fn is_filled(out: &KeptOutput, err: &KeptOutput, descriptor: u32) -> bool
    ensures { result ≡ is_filled out.now err.now descriptor }
{
    match descriptor {
        1 => out.full,
        2 => err.full,
        _ => false,
    }
}

/// What a handle has, with the bytes of its module. It is let go as a whole, so that its destructor is proved once.
#[derive(Drop)]
pub enum HandleContent {
    /// A module that no session has.
    Loaded(LoadedModule, ModuleBytes<'static>),
    /// A session that isn't finished.
    Running(OpenSession),
    /// A session that is finished.
    Finished(Ended),
    /// A module whose instances have their exported functions called.
    Plugin(HostPlugin, ModuleBytes<'static>),
    /// An instance that isn't finished.
    Instance(Living),
    /// An instance that is finished.
    SessionLeft(SessionLeft),
    /// Nothing, while a call changes what it has.
    Nothing,
}

impl HandleContent {
    ghost use Rattle.sandbox_host.specs.Sessions.{is_session, is_loaded, is_plugin, output_of, is_filled_of, sectors_of, IsShown};

    /// Whether it is a session or an instance, finished or not.
    pub(crate) fn is_session(&self) -> bool
        ensures { result ≡ is_session self.now }
    {
        matches!(
            self,
            HandleContent::Running(..)
                | HandleContent::Finished(_)
                | HandleContent::Instance(_)
                | HandleContent::SessionLeft(_)
        )
    }

    /// Whether it is a loaded module.
    pub(crate) fn is_loaded(&self) -> bool
        ensures { result ≡ is_loaded self.now }
    {
        matches!(self, HandleContent::Loaded(..))
    }

    /// Whether it is a module for instances.
    pub(crate) fn is_plugin(&self) -> bool
        ensures { result ≡ is_plugin self.now }
    {
        matches!(self, HandleContent::Plugin(..))
    }

    /// What the guest has written to descriptor 1 or 2.
    pub(crate) fn output(&self, descriptor: u32) -> &[u8]
        ensures { result.now ≡ output_of self.now descriptor }
    {
        match self {
            HandleContent::Running(OpenSession { session, .. }) => {
                stream(session.out(), session.err(), descriptor)
            }
            HandleContent::Finished(ended) => stream(&ended.out, &ended.err, descriptor),
            HandleContent::Instance(Living { instance, .. }) => {
                stream(instance.out(), instance.err(), descriptor)
            }
            HandleContent::SessionLeft(left) => stream(&left.out, &left.err, descriptor),
            _ => &[],
        }
    }

    /// Whether the guest was refused a write to descriptor 1 or 2 since it has written as much as it may.
    pub(crate) fn is_filled(&self, descriptor: u32) -> bool
        ensures { result ≡ is_filled_of self.now descriptor }
    {
        match self {
            HandleContent::Running(OpenSession { session, .. }) => {
                is_filled(session.out(), session.err(), descriptor)
            }
            HandleContent::Finished(ended) => is_filled(&ended.out, &ended.err, descriptor),
            HandleContent::Instance(Living { instance, .. }) => {
                is_filled(instance.out(), instance.err(), descriptor)
            }
            HandleContent::SessionLeft(left) => is_filled(&left.out, &left.err, descriptor),
            _ => false,
        }
    }

    /// Copies the sectors of a finished session's volume, as many as there is room for, and says how many it has.
    pub(crate) fn show_sectors(&self, room: &mut [Sector]) -> usize
        ensures length { result ≡ length (sectors_of self.now) }
        ensures shown { IsShown (sectors_of self.now) room.old room.new }
    {
        let device = match self {
            HandleContent::Finished(ended) => &ended.device,
            HandleContent::SessionLeft(left) => &left.device,
            _ => return 0,
        };
        show_sectors(device, room);
        device.sectors() as usize
    }
}
