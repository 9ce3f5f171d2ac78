//! Sections of a module's bytes, whatever they hold: they are read in bytes that spell no module, too.

ghost use Rattle.std.specs.Prelude.{◌≡◌, ◌^◌, ◌<◌, ◌≤◌, IfSome};
ghost use Rattle.std.specs.Option.{option_map};
ghost use Rattle.wasm_syntax.specs.declared.number.Sign.TheVariants.{Unsigned};
ghost use Rattle.wasm_syntax.specs.Reading.{last_at, number_at, raw_of, sized_at, u32_at};
ghost use Rattle.sandbox_inspect.specs.Places.{find_section, is_named, is_wanted, module_section, section_of};
ghost use Rattle.sandbox_inspect.specs.internal.Views.{found};

/// Which section is looked for.
#[derive(Clone, Copy)]
pub(crate) enum Wanted {
    Code,
    /// Any that comes after the imports; custom ones don't count.
    AfterImports,
    /// The custom section `name`.
    Names,
    /// In the content of that one, the subsection of functions' names.
    FunctionNames,
    Exports,
}

/// A section: the bytes from its id on, what it holds, and the bytes after it.
#[derive(Clone, Copy)]
pub(crate) struct Section<'a> {
    pub from: &'a [u8],
    pub id: u8,
    pub content: &'a [u8],
    pub rest: &'a [u8],
}

/// The number of this many bits that ends in this byte: the bits that it has too many are 0.
fn last(bits: u32, byte: u8) -> Option<u64>
    requires { bits ≤ 32 }
    ensures value { result ≡ last_at Unsigned bits byte }
    ensures within { IfSome result (λ n. n < 2 ^ bits) }
{
    let value = u64::from(byte);
    if value < 1u64 << bits {
        Some(value)
    } else {
        None
    }
}

/// The number of this many bits that the bytes begin with, in LEB128 (section 5.2.2), and the bytes after it.
fn number_of(bits: u32, bytes: &[u8]) -> Option<(u64, &[u8])>
    requires { bits ≤ 32 }
    ensures value { option_map (λ x. (x.0, x.1.now)) result ≡ number_at Unsigned bits bytes.now }
    ensures within { IfSome result (λ x. x.0 < 2 ^ bits) }
{
    let Some((first, rest)) = bytes.split_first() else {
        return None;
    };
    let first = *first;
    if first < 128 {
        let value = last(bits, first)?;
        return Some((value, rest));
    }
    if bits <= 7 {
        return None;
    }
    let (high, rest) = number_of(bits - 7, rest)?;
    Some((u64::from(first) - 128 + 128 * high, rest))
}

/// The number of 32 bits that the bytes begin with, and the bytes after it.
#[tactic(auto, unfolding(wasm_syntax::specs::Reading::u32_at))]
pub(crate) fn number(bytes: &[u8]) -> Option<(u32, &[u8])>
    ensures { option_map (λ x. (x.0, x.1.now)) result ≡ u32_at bytes.now }
{
    let (value, rest) = number_of(32, bytes)?;
    Some((value as u32, rest))
}

/// A size, so many bytes, and those after them.
#[tactic(auto, unfolding(wasm_syntax::specs::Reading::sized_at, wasm_syntax::specs::Reading::raw_of))]
pub(crate) fn sized(bytes: &[u8]) -> Option<(&[u8], &[u8])>
    ensures { option_map (λ x. (x.0.now, x.1.now)) result ≡ sized_at raw_of bytes.now }
{
    let (size, rest) = number(bytes)?;
    let size = size as usize;
    if rest.len() < size {
        return None;
    }
    Some(rest.split_at(size))
}

/// The section that the bytes begin with.
fn first_section(bytes: &[u8]) -> Option<Section<'_>>
    ensures { option_map found result ≡ section_of bytes.now }
{
    let (id, sized_content) = bytes.split_first()?;
    let (content, rest) = sized(sized_content)?;
    Some(Section {
        from: bytes,
        id: *id,
        content,
        rest,
    })
}

/// Whether it is the content of a custom section of this name.
fn is_named(name: &[u8], content: &[u8]) -> bool
    ensures { result ≡ is_named name.now content.now }
{
    match sized(content) {
        Some((found_name, _)) => found_name == name,
        None => false,
    }
}

fn is_wanted(wanted: Wanted, section: &Section<'_>) -> bool
    ensures { result ≡ is_wanted wanted (found section.now) }
{
    match wanted {
        Wanted::Code => section.id == 10,
        Wanted::AfterImports => section.id > 2,
        Wanted::Names => section.id == 0 && is_named(b"name", section.content),
        Wanted::FunctionNames => section.id == 1,
        Wanted::Exports => section.id == 7,
    }
}

/// The first section that is wanted, among so many.
pub(crate) fn find(wanted: Wanted, most: usize, bytes: &[u8]) -> Option<Section<'_>>
    ensures { option_map found result ≡ find_section wanted most bytes.now }
{
    let mut rest = bytes;
    for _ in 0..most {
        let section = first_section(rest)?;
        if is_wanted(wanted, &section) {
            return Some(section);
        }
        rest = section.rest;
    }
    None
}

/// The first section of a module that is wanted.
pub(crate) fn module_section(wanted: Wanted, bytes: &[u8]) -> Option<Section<'_>>
    ensures { option_map found result ≡ module_section wanted bytes.now }
{
    find(wanted, bytes.len(), bytes.get(8..).unwrap_or(&[]))
}
