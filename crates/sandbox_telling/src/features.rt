//! Which later feature of WebAssembly a module is of, by a byte of it that has no meaning in what is taken.

/// The opcode that a second number follows.
const PREFIX: u8 = 0xFC;

const BULK_MEMORY: &str =
    "it is of bulk memory, of which memory.copy and memory.fill run, so build for -mcpu=mvp";

const EXCEPTIONS: &str = "it is of exceptions, so build with -fno-exceptions";

const GARBAGE_COLLECTION: &str = "it is of garbage collection, so build for linear memory";

const LARGE_MEMORY: &str =
    "it is of memories of 64 bits, or a tag of exceptions, so build for wasm32 with -fno-exceptions";

const PADDED_INDEX: &str =
    "it is of reference types, which pad the index of a table, so link with --compress-relocations, or try tools/soften";

const REFERENCES: &str = "it is of reference types, so build for -mcpu=mvp";

const SIMD: &str = "it is of SIMD, so build without -msimd128";

const TAIL_CALLS: &str = "it is of tail calls, so build without -mtail-call";

const THREADS: &str = "it is of threads, so build without -pthread";

/// What helps against this byte in a function, an opcode or a type.
fn cure_in_function(byte: u8) -> Option<&'static str> {
    match byte {
        0x06..=0x0A | 0x18 | 0x19 | 0x1F => Some(EXCEPTIONS),
        0x12 | 0x13 | 0x15 => Some(TAIL_CALLS),
        0x14 | 0x1C | 0x25 | 0x26 | 0x6F | 0x70 | 0xD0..=0xD2 => Some(REFERENCES),
        0x7B | 0xFD => Some(SIMD),
        0x80 => Some(PADDED_INDEX),
        0xFB => Some(GARBAGE_COLLECTION),
        0xFE => Some(THREADS),
        _ => None,
    }
}

/// What helps against this number behind the opcode of bulk memory.
fn cure_behind_prefix(number: u8) -> Option<&'static str> {
    match number {
        0x08..=0x0E => Some(BULK_MEMORY),
        0x0F..=0x11 => Some(REFERENCES),
        _ => None,
    }
}

/// What helps against this byte outside of functions: a type, the flags of a memory, the kind of an import, or the id of a section.
fn cure_outside(byte: u8) -> Option<&'static str> {
    match byte {
        0x02 | 0x03 => Some(THREADS),
        0x04 | 0x05 => Some(LARGE_MEMORY),
        0x0D => Some(EXCEPTIONS),
        0x4E..=0x50 | 0x5E | 0x5F => Some(GARBAGE_COLLECTION),
        0x6F | 0x70 => Some(REFERENCES),
        0x7B => Some(SIMD),
        _ => None,
    }
}

/// Whether a block begins with this byte, behind which an index of a type may stand.
fn may_begin_block(byte: u8) -> bool {
    matches!(byte, 0x02..=0x04)
}

/// What helps against the byte at this offset of a module, which has no meaning there, where it is of a later feature.
pub fn feature_cure(bytes: &[u8], offset: u32, in_function: bool) -> Option<&'static str> {
    let at = offset as usize;
    let byte = *bytes.get(at)?;
    if !in_function {
        return cure_outside(byte);
    }
    let before = *bytes.get(at.checked_sub(1)?)?;
    if before == PREFIX {
        cure_behind_prefix(byte)
    } else if may_begin_block(before) && byte < 0x40 {
        None
    } else {
        cure_in_function(byte)
    }
}
