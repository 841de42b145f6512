//! Byte orders (gABI, chapter "ELF Header", "Data Encoding").
ghost use Rattle.std.specs.Prelude.{◌≡◌, ◌<◌, ◌^◌, ℕ, Bool, not, true, false, Option, Some, None, if◌then◌else◌, ok_or};
ghost use Rattle.elf_abi.specs.Values.{elfdata2lsb, elfdata2msb};
ghost use Rattle.elf_records.specs.Number.{bytes_at, moved_by, number_at, ok_map, signed_number, signed_number_at};

use crate::parse::ParseError;
use elf_abi::abi;

/// Returns the `width` bytes of the data at `offset`, and moves `offset` past them.
///
/// Errors, which leave `offset` as it is, in order: `IntegerOverflow` if their end does not fit 64 bits;
/// `SliceReadError((start, end))` if they do not lie in the data.
#[tactic(auto, unfolding(crate::specs::Number::bytes_at))]
#[inline(always)]
pub fn next_bytes<'data>(
    offset: &mut usize,
    width: usize,
    data: &'data [u8],
) -> Result<&'data [u8], ParseError>
    ensures value { ok_map (λ bytes. bytes.now) result ≡ bytes_at width «data».now offset.old }
    ensures moved { offset.new ≡ moved_by width result offset.old }
{
    let start = *offset;
    let end = start.checked_add(width).ok_or(ParseError::IntegerOverflow)?;
    if end > data.len() {
        return Err(ParseError::SliceReadError((start, end)));
    }
    *offset = end;
    Ok(&data[start..end])
}

// The next `N` bytes of the data, as an array.
#[tactic(auto, unfolding(crate::specs::Number::bytes_at))]
#[inline(always)]
fn next_array<const N: usize>(offset: &mut usize, data: &[u8]) -> Result<[u8; N], ParseError>
    ensures value { result ≡ bytes_at N «data».now offset.old }
    ensures moved { offset.new ≡ moved_by N result offset.old }
{
    let bytes = next_bytes(offset, N, data)?;
    Ok(bytes.try_into()?)
}

/// A byte order, fixed by the type or stated by the file.
///
/// Each `parse_*` returns the number at `offset`, in bytes, and moves `offset` past it. Errors, in order:
/// `IntegerOverflow` if the end of the number does not fit 64 bits; `SliceReadError((start, end))` if the number
/// does not lie in the data. An error leaves `offset` unchanged.
///
/// The laws: numbers are read as `is_little` says, and `is_big` is its opposite. `from_ei_data` accepts 1 only as a
/// little order, 2 only as a big order, and no other byte.
pub trait EndianParse: Clone + Copy + Default + PartialEq + Eq {
    // Whether it is the little order.
    ghost little: { Self → Bool };

    // The order that an order byte names, if this type has it.
    ghost of_byte: { ℕ → Option Self };

    /// Reads one byte.
    #[tactic(auto, unfolding(crate::specs::Number::number_at))]
    fn parse_u8_at(self, offset: &mut usize, data: &[u8]) -> Result<u8, ParseError>
        ensures value { result ≡ number_at (little self) 1 «data».now offset.old }
        ensures moved { offset.new ≡ moved_by 1 result offset.old }
    {
        let bytes = next_array(offset, data)?;
        if self.is_little() {
            Ok(u8::from_le_bytes(bytes))
        } else {
            Ok(u8::from_be_bytes(bytes))
        }
    }

    /// Reads an unsigned number of two bytes.
    #[tactic(auto, unfolding(crate::specs::Number::number_at))]
    fn parse_u16_at(self, offset: &mut usize, data: &[u8]) -> Result<u16, ParseError>
        ensures value { result ≡ number_at (little self) 2 «data».now offset.old }
        ensures moved { offset.new ≡ moved_by 2 result offset.old }
    {
        let bytes = next_array(offset, data)?;
        if self.is_little() {
            Ok(u16::from_le_bytes(bytes))
        } else {
            Ok(u16::from_be_bytes(bytes))
        }
    }

    /// Reads an unsigned number of four bytes.
    #[tactic(auto, unfolding(crate::specs::Number::number_at))]
    fn parse_u32_at(self, offset: &mut usize, data: &[u8]) -> Result<u32, ParseError>
        ensures value { result ≡ number_at (little self) 4 «data».now offset.old }
        ensures moved { offset.new ≡ moved_by 4 result offset.old }
    {
        let bytes = next_array(offset, data)?;
        if self.is_little() {
            Ok(u32::from_le_bytes(bytes))
        } else {
            Ok(u32::from_be_bytes(bytes))
        }
    }

    /// Reads an unsigned number of eight bytes.
    #[tactic(auto, using(crate::proofs::Numbers::number_64), unfolding(crate::specs::Number::number_at))]
    fn parse_u64_at(self, offset: &mut usize, data: &[u8]) -> Result<u64, ParseError>
        ensures value { result ≡ number_at (little self) 8 «data».now offset.old }
        ensures moved { offset.new ≡ moved_by 8 result offset.old }
    {
        let bytes = next_array(offset, data)?;
        if self.is_little() {
            Ok(u64::from_le_bytes(bytes))
        } else {
            Ok(u64::from_be_bytes(bytes))
        }
    }

    /// Reads a number of four bytes in two's complement.
    #[tactic(auto, unfolding(crate::specs::Number::signed_number_at))]
    fn parse_i32_at(self, offset: &mut usize, data: &[u8]) -> Result<i32, ParseError>
        ensures value { result ≡ signed_number_at (little self) 4 «data».now offset.old }
        ensures moved { offset.new ≡ moved_by 4 result offset.old }
    {
        let bits = self.parse_u32_at(offset, data)?;
        Ok(bits.cast_signed())
    }

    /// Reads a number of eight bytes in two's complement.
    #[tactic(auto, unfolding(crate::specs::Number::signed_number_at))]
    fn parse_i64_at(self, offset: &mut usize, data: &[u8]) -> Result<i64, ParseError>
        ensures value { result ≡ signed_number_at (little self) 8 «data».now offset.old }
        ensures moved { offset.new ≡ moved_by 8 result offset.old }
    {
        let bits = self.parse_u64_at(offset, data)?;
        Ok(bits.cast_signed())
    }

    /// Returns the order that the order byte of a file names, or `UnsupportedElfEndianness(ei_data)` if this
    /// type has no such order.
    fn from_ei_data(ei_data: u8) -> Result<Self, ParseError>
        ensures { result ≡ ok_or (of_byte ei_data) (ParseError.UnsupportedElfEndianness ei_data) };

    /// Returns whether the lowest byte of a number comes first.
    fn is_little(self) -> bool
        ensures { result ≡ little self };

    /// Returns whether the highest byte of a number comes first.
    fn is_big(self) -> bool
        ensures { result ≡ not (little self) }
    {
        !self.is_little()
    }

    // 1 names the little order, 2 the big one, and no other byte names any.
    ghost byte_of: { (n : ℕ) (order : Self) → of_byte n ≡ Some order →
        n ≡ (if little order then elfdata2lsb else elfdata2msb) };
}

/// Either order, as the file states it. The default is `Little`.
#[derive(Clone, Copy, Debug, Default, Eq, PartialEq)]
pub enum AnyEndian {
    #[default]
    Little,
    Big,
}

/// The little order only: `from_ei_data` returns `UnsupportedElfEndianness` for every other order byte.
#[derive(Clone, Copy, Debug, Default, Eq, PartialEq)]
pub struct LittleEndian;

/// The big order only: `from_ei_data` returns `UnsupportedElfEndianness` for every other order byte.
#[derive(Clone, Copy, Debug, Default, Eq, PartialEq)]
pub struct BigEndian;

/// The byte order of the machine. It is a type and not a constant: for the value write `LittleEndian`.
pub type NativeEndian = LittleEndian;

impl EndianParse for AnyEndian {
    ghost use Rattle.elf_records.specs.Endian.{any_is_little, any_of_byte, any_byte_of};

    ghost little = { any_is_little };

    ghost of_byte = { any_of_byte };

    ghost byte_of = { any_byte_of };

    fn from_ei_data(ei_data: u8) -> Result<Self, ParseError> {
        match ei_data {
            abi::ELFDATA2LSB => Ok(AnyEndian::Little),
            abi::ELFDATA2MSB => Ok(AnyEndian::Big),
            _ => Err(ParseError::UnsupportedElfEndianness(ei_data)),
        }
    }

    fn is_little(self) -> bool {
        match self {
            AnyEndian::Little => true,
            AnyEndian::Big => false,
        }
    }
}

impl EndianParse for LittleEndian {
    ghost use Rattle.elf_records.specs.Endian.{little_of_byte, little_byte_of};

    ghost little = { λ _. true };

    ghost of_byte = { little_of_byte };

    ghost byte_of = { little_byte_of };

    fn from_ei_data(ei_data: u8) -> Result<Self, ParseError> {
        match ei_data {
            abi::ELFDATA2LSB => Ok(LittleEndian),
            _ => Err(ParseError::UnsupportedElfEndianness(ei_data)),
        }
    }

    fn is_little(self) -> bool {
        true
    }
}

impl EndianParse for BigEndian {
    ghost use Rattle.elf_records.specs.Endian.{big_of_byte, big_byte_of};

    ghost little = { λ _. false };

    ghost of_byte = { big_of_byte };

    ghost byte_of = { big_byte_of };

    fn from_ei_data(ei_data: u8) -> Result<Self, ParseError> {
        match ei_data {
            abi::ELFDATA2MSB => Ok(BigEndian),
            _ => Err(ParseError::UnsupportedElfEndianness(ei_data)),
        }
    }

    fn is_little(self) -> bool {
        false
    }
}
