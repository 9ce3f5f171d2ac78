//! A place in the bytes of a module.

ghost use Rattle.std.specs.Prelude.{◌≡◌, ◌==◌, ◌^◌, ◌<◌, ◌≤◌, [], length, IfOk, MatchResult};
ghost use Rattle.wasm_syntax.specs.internal.CodeReading.{s32_at, s64_at, one_more_at, code_at};
ghost use Rattle.wasm_syntax.specs.declared.profile.Profile.{Profile as ProfileValue};
ghost use Rattle.wasm_syntax.specs.Reading.{Gives, Reader, byte_at, number_at, u32_at, next_at, begins, many_at, vector_at, piece_at, whole, sized_at, raw_of, utf8_text_of, name_at, custom_of, customs_at, section_at};

use std::alloc::Global;
use std::marker::Model;
use wasm_syntax::fault::LoadFault;
use wasm_syntax::instruction::Instruction;
use wasm_syntax::items::{Bytes, Items, Name};
use wasm_syntax::number::{NumberSpan, Sign, last, number};
use wasm_syntax::open_blocks::OpenBlocks;
use wasm_syntax::profile::Profile;

/// The bytes that are left, and where in the input they end.
#[derive(Drop)]
pub struct Cursor<'a> {
    rest: &'a [u8],
    end: u32,
}

/// A number of bytes as part of an offset. What is decoded is far shorter than 2 ^ 32 bytes.
fn part_of_offset(len: usize) -> u32 {
    (len & 0xFFFF_FFFF) as u32
}

impl<'a> Model for Cursor<'a> {
    ghost use Rattle.std.specs.Prelude.{ℕ, List};

    ghost Value = { List ℕ };

    ghost view = { λ c. c.rest.now };
}

/// What stands in a module's bytes, by what is taken of the standard.
pub trait Decode<'a>: Drop {
    ghost at: { ProfileValue → Reader Self };

    /// The value at the cursor, which goes past it.
    fn decode(alloc: Global, cursor: &mut Cursor<'a>, profile: Profile) -> Result<Self, LoadFault>
        ensures { Gives (λ x. (x, cursor.new)) result (at profile cursor.old) };
}

// One after the other. A value that is read piece by piece is dropped at each later exit; read in
// one call it has one.
impl<'a, A: Decode<'a>, B: Decode<'a>> Decode<'a> for (A, B) {
    ghost use Rattle.wasm_syntax.specs.Reading.{then_at};

    ghost at = { λ p. then_at (A.at p) (B.at p) };

    fn decode(
        alloc: Global,
        cursor: &mut Cursor<'a>,
        profile: Profile,
    ) -> Result<(A, B), LoadFault> {
        let first = A::decode(alloc, cursor, profile)?;
        let second = B::decode(alloc, cursor, profile)?;
        Ok((first, second))
    }
}

impl<'a> Decode<'a> for Name<'a> {
    ghost at = { λ p. name_at };

    fn decode(
        _alloc: Global,
        cursor: &mut Cursor<'a>,
        _profile: Profile,
    ) -> Result<Name<'a>, LoadFault> {
        cursor.name()
    }
}

/// Bytes after their count.
impl<'a> Decode<'a> for Bytes<'a> {
    ghost at = { λ p. sized_at raw_of };

    fn decode(
        _alloc: Global,
        cursor: &mut Cursor<'a>,
        _profile: Profile,
    ) -> Result<Bytes<'a>, LoadFault> {
        Ok(cursor.sized_piece()?.bytes())
    }
}

impl<'a> Cursor<'a> {
    /// The beginning of an input.
    pub fn new(bytes: &'a [u8]) -> Cursor<'a>
        ensures { result ≡ bytes.now }
    {
        Cursor {
            rest: bytes,
            end: part_of_offset(bytes.len()),
        }
    }

    /// The place in an input that is this many bytes from its first.
    pub fn at(input: &'a [u8], offset: u32) -> Cursor<'a> {
        Cursor {
            rest: input.get(offset as usize..).unwrap_or(&[]),
            end: part_of_offset(input.len()),
        }
    }

    /// The beginning of these bytes.
    pub fn of(bytes: &Bytes<'a>) -> Cursor<'a> {
        let rest = bytes.as_slice();
        let end = bytes.offset().wrapping_add(part_of_offset(rest.len()));
        Cursor { rest, end }
    }

    /// Where the next byte stands, in bytes from the first of the input.
    pub fn offset(&self) -> u32 {
        self.end.wrapping_sub(part_of_offset(self.rest.len()))
    }

    /// Where the bytes end.
    pub fn end(&self) -> u32 {
        self.end
    }

    /// The bytes that are left.
    pub fn bytes(&self) -> Bytes<'a>
        ensures { result ≡ self.now }
    {
        Bytes::new(self.rest, self.offset())
    }

    pub fn len(&self) -> usize
        ensures { result ≡ length self.now }
    {
        self.rest.len()
    }

    pub fn is_empty(&self) -> bool
        ensures { result ≡ (length self.now == 0) }
    {
        self.rest.is_empty()
    }

    /// Whether this byte is the next.
    pub fn begins(&self, id: u8) -> bool
        ensures { result ≡ begins id self.now }
    {
        match self.rest {
            [first, ..] => *first == id,
            [] => false,
        }
    }

    /// The next byte.
    pub fn byte(&mut self) -> Result<u8, LoadFault>
        ensures { Gives (λ x. (x, self.new)) result (next_at self.old) }
    {
        let Some((first, rest)) = self.rest.split_first() else {
            return Err(LoadFault::Truncated { offset: self.end() });
        };
        self.rest = rest;
        Ok(*first)
    }

    /// Goes past this byte, which has to be the next.
    pub fn expect(&mut self, byte: u8, fault: LoadFault) -> Result<(), LoadFault>
        ensures { Gives (λ x. (x, self.new)) result (byte_at byte self.old) }
    {
        if self.byte()? != byte {
            return Err(fault);
        }
        Ok(())
    }

    /// Goes past a byte that has to be 0.
    pub fn zero(&mut self) -> Result<(), LoadFault>
        ensures { Gives (λ x. (x, self.new)) result (byte_at 0 self.old) }
    {
        let offset = self.offset();
        self.expect(0x00, LoadFault::BadByte { offset })
    }

    fn span(&self) -> NumberSpan {
        NumberSpan {
            begin: self.offset(),
            end: self.end(),
        }
    }

    /// The next number of this many bits, modulo 2 to that power. Most are one byte, which is read
    /// without a call.
    #[inline(always)]
    fn number(&mut self, sign: Sign, bits: u32) -> Result<u64, LoadFault>
        requires some { 0 < bits }
        requires fits { bits ≤ 64 }
        ensures value { Gives (λ x. (x, self.new)) result (number_at sign bits self.old) }
        ensures within { IfOk result (λ x. x < 2 ^ bits) }
    {
        match self.rest.split_first() {
            Some((first, rest)) if *first < 128 => {
                let value = last(sign, bits, *first, self.span())?;
                self.rest = rest;
                Ok(value)
            }
            _ => {
                let (value, rest) = number(sign, bits, self.rest, self.span())?;
                self.rest = rest;
                Ok(value)
            }
        }
    }

    #[inline(always)]
    #[tactic(auto, unfolding(wasm_syntax::specs::Reading::u32_at))]
    pub fn u32(&mut self) -> Result<u32, LoadFault>
        ensures { Gives (λ x. (x, self.new)) result (u32_at self.old) }
    {
        Ok(self.number(Sign::Unsigned, 32)? as u32)
    }

    /// A signed number, modulo 2 ^ 32.
    #[tactic(auto, unfolding(wasm_syntax::specs::internal::CodeReading::s32_at))]
    pub fn s32(&mut self) -> Result<u32, LoadFault>
        ensures { Gives (λ x. (x, self.new)) result (s32_at self.old) }
    {
        Ok(self.number(Sign::Signed, 32)? as u32)
    }

    /// A signed number, modulo 2 ^ 64.
    #[tactic(auto, unfolding(wasm_syntax::specs::internal::CodeReading::s64_at))]
    pub fn s64(&mut self) -> Result<u64, LoadFault>
        ensures { Gives (λ x. (x, self.new)) result (s64_at self.old) }
    {
        self.number(Sign::Signed, 64)
    }

    /// The next bytes, by themselves.
    pub fn piece(&mut self, len: u32) -> Result<Cursor<'a>, LoadFault>
        ensures { Gives (λ x. (x, self.new)) result (piece_at len self.old) }
    {
        let len = len as usize;
        if self.rest.len() < len {
            return Err(LoadFault::Truncated { offset: self.end() });
        }
        let (front, rest) = self.rest.split_at(len);
        let end = self.end.wrapping_sub(part_of_offset(rest.len()));
        self.rest = rest;
        Ok(Cursor { rest: front, end })
    }

    /// The next bytes, by themselves, after their count.
    #[tactic(auto, unfolding(wasm_syntax::specs::Reading::sized_at, wasm_syntax::specs::Reading::raw_of))]
    pub fn sized_piece(&mut self) -> Result<Cursor<'a>, LoadFault>
        ensures { Gives (λ x. (x, self.new)) result (sized_at raw_of self.old) }
    {
        let size = self.u32()?;
        self.piece(size)
    }

    #[tactic(auto, unfolding(wasm_syntax::specs::Reading::vector_at))]
    pub fn vector<T: Decode<'a>>(
        &mut self,
        alloc: Global,
        profile: Profile,
    ) -> Result<Items<T>, LoadFault>
        ensures { Gives (λ x. (x, self.new)) result (vector_at (T.at profile) self.old) }
    {
        let offset = self.offset();
        let count = self.u32()?;
        self.many(alloc, profile, count, offset)
    }

    /// An empty list with room for this many values. Each takes a byte at least, so where fewer bytes
    /// are left the count is wrong, and no room is made.
    pub fn room<T>(&self, alloc: Global, count: u32) -> Result<Vec<T>, LoadFault>
        ensures { MatchResult result (λ values. values.items ≡ []) (λ e. e ≡ LoadFault.Memory) }
    {
        let count = count as usize;
        if count > self.rest.len() {
            return Ok(Vec::new(alloc));
        }
        Ok(Vec::with_capacity(alloc, count)?)
    }

    /// This many values.
    #[tactic(auto, using(crate::proofs::Steps::many_more, crate::proofs::Steps::many_done))]
    fn many<T: Decode<'a>>(
        &mut self,
        alloc: Global,
        profile: Profile,
        count: u32,
        offset: u32,
    ) -> Result<Items<T>, LoadFault>
        ensures { Gives (λ x. (x, self.new)) result (many_at (T.at profile) count self.old) }
    {
        let mut items = self.room(alloc, count)?;
        for _ in 0..count {
            items.push(T::decode(alloc, self, profile)?)?;
        }
        Ok(Items::from_vec(items, offset))
    }

    /// A value that fills the bytes; they belong to the part that begins at this offset.
    pub fn whole<T: Decode<'a>>(
        mut self,
        alloc: Global,
        profile: Profile,
        part: u32,
    ) -> Result<T, LoadFault>
        ensures { Gives (λ x. x) result (whole (T.at profile) self.entry) }
    {
        let value = T::decode(alloc, &mut self, profile)?;
        if self.rest.is_empty() {
            Ok(value)
        } else {
            Err(LoadFault::SectionSize { offset: part })
        }
    }

    /// A value after its size, in the part that begins at this offset.
    pub fn sized<T: Decode<'a>>(
        &mut self,
        alloc: Global,
        profile: Profile,
        part: u32,
    ) -> Result<T, LoadFault>
        ensures { Gives (λ x. (x, self.new)) result (sized_at (whole (T.at profile)) self.old) }
    {
        match self.sized_piece()?.whole(alloc, profile, part) {
            Ok(value) => Ok(value),
            Err(fault) => Err(fault.inside(part)),
        }
    }

    /// All of the bytes, as a name.
    #[tactic(auto, using(crate::proofs::Texts::is_text, crate::proofs::Texts::is_no_text))]
    fn text(self) -> Result<Name<'a>, LoadFault>
        ensures { Gives (λ x. x) result (utf8_text_of self.entry) }
    {
        match simdutf8::basic::from_utf8(self.rest) {
            Ok(text) => Ok(Name::new(text)),
            Err(_) => Err(LoadFault::NotUtf8 {
                offset: self.offset(),
            }),
        }
    }

    #[tactic(auto, unfolding(wasm_syntax::specs::Reading::name_at))]
    fn name(&mut self) -> Result<Name<'a>, LoadFault>
        ensures { Gives (λ x. (x, self.new)) result (name_at self.old) }
    {
        self.sized_piece()?.text()
    }

    /// The content of the custom section that begins at this offset: its name is read, and
    /// nothing else.
    #[tactic(auto, unfolding(wasm_syntax::specs::Reading::custom_of))]
    fn custom_content(mut self, section: u32) -> Result<(), LoadFault>
        ensures { Gives (λ x. x) result (custom_of self.entry) }
    {
        match self.name() {
            Ok(_) => Ok(()),
            Err(fault) => Err(fault.inside(section)),
        }
    }

    fn custom(&mut self, section: u32) -> Result<(), LoadFault>
        ensures { Gives (λ x. (x, self.new)) result (sized_at custom_of self.old) }
    {
        self.sized_piece()?.custom_content(section)
    }

    /// Goes past the custom sections at the front.
    #[tactic(auto, using(crate::proofs::Steps::customs_more, crate::proofs::Steps::customs_done), unfolding(wasm_syntax::specs::Reading::customs_at))]
    pub fn customs(&mut self) -> Result<(), LoadFault>
        ensures { Gives (λ x. (x, self.new)) result (customs_at self.old) }
    {
        for _ in 0..self.len() {
            if !self.begins(0) {
                return Ok(());
            }
            let section = self.offset();
            self.byte()?;
            self.custom(section)?;
        }
        Ok(())
    }

    /// A section that may be absent, and the custom sections after it.
    #[tactic(auto, unfolding(wasm_syntax::specs::Reading::section_at))]
    pub fn section<T: Decode<'a>>(
        &mut self,
        alloc: Global,
        profile: Profile,
        id: u8,
    ) -> Result<Option<T>, LoadFault>
        ensures { Gives (λ x. (x, self.new)) result
            (section_at id (whole (T.at profile)) self.old) }
    {
        if !self.begins(id) {
            return Ok(None);
        }
        let section = self.offset();
        self.byte()?;
        let value = self.sized(alloc, profile, section)?;
        self.customs()?;
        Ok(Some(value))
    }

    /// One instruction more of a code with open blocks.
    #[tactic(auto, unfolding(wasm_syntax::specs::internal::CodeReading::one_more_at))]
    fn one_more(
        &mut self,
        alloc: Global,
        profile: Profile,
        code: &mut Vec<Instruction>,
        blocks: &mut OpenBlocks,
    ) -> Result<(), LoadFault>
        ensures { Gives (λ _. ((code.new.items, blocks.new), self.new)) result
            (one_more_at profile code.old.items blocks.old self.old) }
    {
        let offset = self.offset();
        let instruction = Instruction::decode(alloc, self, profile)?;
        blocks.step(&instruction, offset)?;
        code.push(instruction)?;
        Ok(())
    }

    /// Instructions up to the one that closes the expression (section 5.4.6). Room for so many is asked for at once, and what of it
    /// isn't used is given back.
    #[tactic(auto, unfolding(wasm_syntax::specs::internal::CodeReading::code_at))]
    pub fn code(
        &mut self,
        alloc: Global,
        profile: Profile,
        room: usize,
    ) -> Result<Items<Instruction>, LoadFault>
        ensures { Gives (λ x. (x, self.new)) result (code_at profile self.old) }
    {
        let begin = self.offset();
        let mut blocks = OpenBlocks::one(alloc)?;
        let mut code = Vec::with_capacity(alloc, room)?;
        for _ in 0..self.len() {
            self.one_more(alloc, profile, &mut code, &mut blocks)?;
            if blocks.is_empty() {
                code.shrink_to_fit();
                return Ok(Items::from_vec(code, begin));
            }
        }
        Err(LoadFault::Truncated { offset: self.end() })
    }
}
