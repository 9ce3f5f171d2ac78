//! What a guest is given besides its streams.

ghost use Rattle.std.specs.Prelude.{◌≡◌, min};
ghost use Rattle.wasi_bodies.specs.supplies.Texts.{has_nul_byte, ended_bytes, texts_fit, name_fits};
ghost use Rattle.std.specs.List.{list_any, list_all};

/// A directory that the guest finds open: the name that it knows it by, and its path in the volume.
#[repr(C)] // a host in C hands it in
#[derive(Clone, Copy)]
pub struct Preopen<'a> {
    pub guest_name: &'a [u8],
    pub path: &'a [u8],
}

/// What a guest is given besides its streams. Texts are bytes.
#[repr(C)] // a host in C hands it in
#[derive(Clone, Copy)]
pub struct Settings<'a, 't> {
    /// The arguments, the program's name first: at most 1,024, of at most 65,536 bytes with one more for the end of each.
    pub args: &'a [&'t [u8]],
    /// The environment, each text as `NAME=VALUE`; as many and as long as arguments may be.
    pub env: &'a [&'t [u8]],
    /// At most 64.
    pub preopens: &'a [Preopen<'t>],
    /// The time of day, in nanoseconds since 1970-01-01 00:00:00 UTC.
    pub moment: u64,
    /// What the guest gets where it asks for random bytes.
    pub random: &'a [u8],
    /// How many pages of 65,536 bytes memory may have at most; at most 65,536.
    pub pages: u32,
}

const MOST_TEXTS: usize = 1_024;

const MOST_TEXT_BYTES: usize = 65_536;

/// As many directories as a guest is given at most.
pub const MOST_PREOPENS: usize = 64;

const LONGEST_NAME: usize = 255;

const MOST_PAGES: u32 = 65_536;

/// Whether a NUL byte is among them.
fn has_nul(text: &[u8]) -> bool
    ensures { result ≡ has_nul_byte text.now }
{
    text.contains(&0)
}

/// How many bytes the texts have with one more for the end of each, or `usize::MAX` where it is more than that.
pub fn nul_terminated_len(texts: &[&[u8]]) -> usize
    ensures { result ≡ min (ended_bytes texts.now) usize.MAX }
{
    let mut len: usize = 0;
    for text in texts {
        len = len.saturating_add(text.len()).saturating_add(1);
    }
    len
}

/// Whether some text has a NUL byte.
fn any_has_nul(texts: &[&[u8]]) -> bool
    ensures { result ≡ list_any (λ t. has_nul_byte t.now) texts.now }
{
    texts.iter().any(|text| has_nul(text))
}

/// Whether a guest can be given these texts.
fn texts_fit(texts: &[&[u8]]) -> bool
    ensures { result ≡ texts_fit texts.now }
{
    texts.len() <= MOST_TEXTS && nul_terminated_len(texts) <= MOST_TEXT_BYTES && !any_has_nul(texts)
}

/// Whether a guest can know a directory by this name.
fn name_fits(name: &[u8]) -> bool
    ensures { result ≡ name_fits name.now }
{
    !name.is_empty() && name.len() <= LONGEST_NAME && !has_nul(name)
}

/// Whether a guest can know all of these directories by their names.
fn names_fit(preopens: &[Preopen]) -> bool
    ensures { result ≡ list_all (λ p. name_fits p.guest_name.now) preopens.now }
{
    preopens.iter().all(|preopen| name_fits(preopen.guest_name))
}

impl<'a, 't> Settings<'a, 't> {
    ghost use Rattle.wasi_bodies.specs.host.Settings.{settings_fit};

    /// Whether a guest can be given this.
    pub fn fits(&self) -> bool
        ensures { result ≡ settings_fit self.now }
    {
        texts_fit(self.args)
            && texts_fit(self.env)
            && self.preopens.len() <= MOST_PREOPENS
            && names_fit(self.preopens)
            && self.pages <= MOST_PAGES
    }
}
