//! Why a run could not begin.

ghost use Rattle.std.specs.Prelude.{◌≡◌, ◌≢◌, ◌<◌, IfSome};
ghost use Rattle.sandbox_report.specs.Faults.{fault_answer, fault_number, fault_offset, fault_status, fault_text};
ghost use Rattle.sandbox_report.specs.Faults.{instance_number, load_number, load_offset, rule_text, volume_number};

use meanings::status::{MEMORY_REFUSED, status_of_fault};
use vol_sector::{Rule, VolumeFault};
use wasm_module::LoadFault;
use wasm_store::InstanceFault;

/// Why a run could not begin.
#[derive(Clone, Copy)]
pub enum Fault {
    /// The module is refused.
    Module(LoadFault),
    /// The volume is refused, or its device failed.
    Volume(VolumeFault),
    /// The module can't be instantiated.
    Instance(InstanceFault),
    /// A setting breaks a rule.
    Setting,
    /// A path to be preopened is no directory of the volume.
    Preopen,
    /// A file of the host could not be opened, made or read.
    File,
    /// Memory was refused.
    Memory,
}

/// The number of a module's fault; none where it is out of memory.
fn load_number(fault: LoadFault) -> Option<u32>
    ensures number { result ≡ load_number fault }
    ensures some { IfSome result (λ n. 0 < n) }
{
    match fault {
        LoadFault::Truncated { .. } => Some(1),
        LoadFault::BadMagic { .. } => Some(2),
        LoadFault::BadVersion { .. } => Some(3),
        LoadFault::BadInteger { .. } => Some(4),
        LoadFault::SectionOrder { .. } => Some(5),
        LoadFault::SectionSize { .. } => Some(6),
        LoadFault::BadByte { .. } => Some(7),
        LoadFault::NotUtf8 { .. } => Some(8),
        LoadFault::CountMismatch { .. } => Some(9),
        LoadFault::Float { .. } => Some(10),
        LoadFault::Limit { .. } => Some(11),
        LoadFault::Invalid { .. } => Some(12),
        LoadFault::Memory => None,
    }
}

/// Where in the module's bytes it is.
fn load_offset(fault: LoadFault) -> Option<u32>
    ensures { result ≡ load_offset fault }
{
    match fault {
        LoadFault::Truncated { offset }
        | LoadFault::BadMagic { offset }
        | LoadFault::BadVersion { offset }
        | LoadFault::BadInteger { offset }
        | LoadFault::SectionOrder { offset }
        | LoadFault::SectionSize { offset }
        | LoadFault::BadByte { offset }
        | LoadFault::NotUtf8 { offset }
        | LoadFault::CountMismatch { offset }
        | LoadFault::Float { offset }
        | LoadFault::Limit { offset }
        | LoadFault::Invalid { offset, .. } => Some(offset),
        LoadFault::Memory => None,
    }
}

/// The number of a volume's fault; none where it is out of memory.
fn volume_number(fault: VolumeFault) -> Option<u32>
    ensures number { result ≡ volume_number fault }
    ensures some { IfSome result (λ n. 0 < n) }
{
    match fault {
        VolumeFault::NotAVolume => Some(30),
        VolumeFault::Version => Some(31),
        VolumeFault::Damaged(_) => Some(32),
        VolumeFault::Device => Some(33),
        VolumeFault::TooSmall => Some(34),
        VolumeFault::Upgraded => Some(35),
        VolumeFault::Geometry => Some(36),
        VolumeFault::Memory => None,
    }
}

/// What is wrong where a rule of a volume's format is broken, in words.
pub fn rule_text(rule: Rule) -> &'static str
    ensures { result.now ≡ rule_text rule }
{
    match rule {
        Rule::Superblock => {
            "a number of the superblock is out of its range, or its rest is not zeros"
        }
        Rule::DeviceSize => "the superblock names more sectors than the file has",
        Rule::LogHeader => "the log's header has a wrong count or number, or its rest is not zeros",
        Rule::Kind => "the kind of an entry is not 3 or 4, or an unused slot is not zeros",
        Rule::Root => "the root is not a directory without a name",
        Rule::Name => "a name is not 1 to 255 bytes of UTF-8, has / or NUL, or is . or ..",
        Rule::Zeros => "a byte between the fields of an entry is not zero",
        Rule::Size => "a directory has a size, or a file is larger than the version allows",
        Rule::PointerPastSize => "a pointer at or past the size is not 0",
        Rule::RootSerial => "serial 1 has a parent, or another entry has none",
        Rule::NameTwice => "two entries agree in parent and name",
        Rule::Pointer => "a pointer is not the number of a data sector",
        Rule::SectorTwice => "a data sector is named twice",
        Rule::LastBlock => "a byte of the last block past the size is not zero",
        Rule::Space => "the needs of the files add up to more than the data sectors",
        Rule::Parent => "the parent of an entry is not a directory",
        Rule::Ancestors => "parents do not lead to the root",
    }
}

/// The number of an instance's fault; none where it is out of memory.
fn instance_number(fault: InstanceFault) -> Option<u32>
    ensures number { result ≡ instance_number fault }
    ensures some { IfSome result (λ n. 0 < n) }
{
    match fault {
        InstanceFault::Import => Some(13),
        InstanceFault::NoStart => Some(14),
        InstanceFault::DataOutOfBounds => Some(20),
        InstanceFault::ElementOutOfBounds => Some(21),
        InstanceFault::PageLimit => Some(22),
        InstanceFault::Memory => None,
    }
}

impl Fault {
    /// Its number, as `sandbox help faults` has it; none where it is out of memory.
    pub fn number(self) -> Option<u32>
        ensures number { result ≡ fault_number self }
        ensures some { IfSome result (λ n. 0 < n) }
    {
        match self {
            Fault::Module(fault) => load_number(fault),
            Fault::Volume(fault) => volume_number(fault),
            Fault::Instance(fault) => instance_number(fault),
            Fault::Setting => Some(15),
            Fault::Preopen => Some(16),
            Fault::File => Some(41),
            Fault::Memory => None,
        }
    }

    /// Where in the module's bytes it is, of a fault of the module.
    pub fn offset(self) -> Option<u32>
        ensures { result ≡ fault_offset self }
    {
        match self {
            Fault::Module(fault) => load_offset(fault),
            _ => None,
        }
    }

    /// It in words, as the register has it; nothing where it is out of memory.
    pub fn text(self) -> &'static str
        ensures { result.now ≡ fault_text self }
    {
        match self.number() {
            Some(number) => meanings::fault_text(number),
            None => "",
        }
    }

    /// Its number as the library answers it, which has one where it is out of memory, too.
    pub fn answer(self) -> u32
        ensures answer { result ≡ fault_answer self }
        ensures some { result ≢ 0 }
    {
        self.number().unwrap_or(MEMORY_REFUSED)
    }

    /// What a command ends with that it refuses.
    pub fn status(self) -> u8
        ensures { result ≡ fault_status self }
    {
        status_of_fault(self.answer())
    }
}
