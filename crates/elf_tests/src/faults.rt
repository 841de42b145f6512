//! The texts of errors.
use elf::ParseError;
use elf_linking::{BindingFault, Unreadable};
use elfshow::runs::RunError;
use std::fmt::Display;
use std::io;
use std::process::Abort;
use std::str::from_utf8;
use std::test::Fail;

/// Asserts the text of an error.
fn assert_text<D: Display + Drop>(rt: &(impl Abort + AllocGlobal), error: D, want: &str) {
    match format!(in rt.alloc(); "{error}") {
        Ok(text) => assert!(rt; text.as_str() == want, "{text}"),
        Err(_) => assert!(rt; false, "no memory"),
    }
}

// The texts were printed by the Rust crate `elf` 0.8.0. Those of the other variants are those of the errors that they
// hold.
#[test]
fn errors_have_the_texts_of_the_rust_crate(rt: HostRuntime) {
    let texts = [
        (
            ParseError::BadMagic([0x7f, 0x0a, 0, 0xff]),
            "Invalid Magic Bytes: [7F, A, 0, FF]",
        ),
        (
            ParseError::UnsupportedElfClass(200),
            "Unsupported ELF Class: 200",
        ),
        (
            ParseError::UnsupportedElfEndianness(201),
            "Unsupported ELF Endianness: 201",
        ),
        (
            ParseError::UnsupportedVersion((11, 1)),
            "Unsupported ELF Version field found: 11 expected: 1",
        ),
        (ParseError::BadOffset(0xabcd), "Bad offset: 0xABCD"),
        (
            ParseError::StringTableMissingNul(0xbeef),
            "Could not find terminating NUL byte starting at offset: 0xBEEF",
        ),
        (
            ParseError::BadEntsize((0x1f, 0x18)),
            "Invalid entsize. Expected: 0x18, Found: 0x1F",
        ),
        (
            ParseError::UnexpectedSectionType((12, 3)),
            "Could not interpret section of type 12 as type 3",
        ),
        (
            ParseError::UnexpectedSegmentType((13, 2)),
            "Could not interpret section of type 13 as type 2",
        ),
        (
            ParseError::UnexpectedAlignment(15),
            "Could not interpret section with unexpected alignment of 15",
        ),
        (
            ParseError::SliceReadError((0x2c, 0x3d)),
            "Could not read bytes in range [0x2C, 0x3D)",
        ),
        (ParseError::IntegerOverflow, "Integer overflow detected"),
    ];
    for (error, want) in texts {
        assert_text(&rt, error, want);
    }
}

#[test]
fn refusals_that_no_row_meets_have_texts(rt: HostRuntime) {
    let text = "Could not interpret section of type 1 as type 3";
    assert_text(&rt, ParseError::UnexpectedSectionType((1, 3)), text);
    assert_text(&rt, ParseError::UnexpectedSegmentType((1, 3)), text);
    let text = "Could not interpret section with unexpected alignment of 0";
    assert_text(&rt, ParseError::UnexpectedAlignment(0), text);
    assert_text(&rt, ParseError::OutOfMemory, "Out of memory");
}

#[test]
fn a_stopped_run_has_the_text_of_its_cause(rt: HostRuntime) {
    let refused = RunError::Open(ParseError::UnsupportedElfClass(9));
    assert_text(&rt, refused, "Unsupported ELF Class: 9");
    let done = 3;
    let error = ParseError::OutOfMemory;
    assert_text(&rt, RunError::Fault { done, error }, "Out of memory");
    let error = io::Error::from(io::ErrorKind::StorageFull);
    assert_text(&rt, RunError::Write { done, error }, "no storage space");
}

#[test]
fn a_fault_of_text_keeps_its_own_words(rt: HostRuntime) -> Result<(), Fail> {
    let error = ParseError::from(from_utf8(&[0xc3, 0x28]).err().ok_or("text")?);
    assert!(rt; matches!(&error, ParseError::Utf8Error(_)));
    assert_text(&rt, error, "invalid utf-8 sequence of 1 bytes from index 0");
    Ok(())
}

#[test]
fn a_fault_of_length_keeps_its_own_words(rt: HostRuntime) -> Result<(), Fail> {
    let four = <[u8; 4]>::try_from(&[1u8, 2][..]);
    let error = ParseError::from(four.err().ok_or("two bytes are four")?);
    assert!(rt; matches!(&error, ParseError::TryFromSliceError(_)));
    assert_text(&rt, error, "could not convert slice to array");
    Ok(())
}

#[test]
fn a_fault_of_range_keeps_its_own_words(rt: HostRuntime) -> Result<(), Fail> {
    let error = ParseError::from(u8::try_from(256u32).err().ok_or("256 is a byte")?);
    assert!(rt; matches!(&error, ParseError::TryFromIntError(_)));
    let want = "out of range integral type conversion attempted";
    assert_text(&rt, error, want);
    Ok(())
}

#[test]
fn a_fault_of_a_device_keeps_its_own_words(rt: HostRuntime) {
    let error = ParseError::from(io::Error::from(io::ErrorKind::StorageFull));
    assert!(rt; matches!(&error, ParseError::IOError(_)));
    assert_text(&rt, error, "no storage space");
}

#[test]
fn a_version_that_cannot_be_read_has_a_text(rt: HostRuntime) {
    let (object, symbol) = (2, 3);
    let unreadable = Unreadable { symbol };
    assert_text(&rt, unreadable, "version of symbol 3 cannot be read");
    let fault = BindingFault { object, symbol };
    assert_text(&rt, fault, "object 2: version of symbol 3 cannot be read");
}
