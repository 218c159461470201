// Labels at the edges of UTF-8 and of their length.
use command_list::fault::Number;
use device::recorder::Recorder;
use labels::label::Label;
use list_bytes::ListBytes;
use std::process::Abort;
use std::test::Fail;

// Bytes that make no label are refused, at place 0.
fn refused(rt: &impl Abort, bytes: &[u8], number: Number) {
    assert_eq!(rt; Label::new(bytes).err(), Some(number.at(0)));
}

fn units(rt: &impl Abort, bytes: &[u8], wanted: &[u16]) -> Result<(), Fail> {
    assert!(rt; Label::new(bytes)?.units() == wanted);
    Ok(())
}

#[test]
fn units_of_each_width(rt: HostRuntime) -> Result<(), Fail> {
    units(&rt, &[], &[0])?;
    units(&rt, &[0x41, 0, 0x42], &[0x41, 0, 0x42, 0])?;
    units(&rt, &[0xC3, 0xA9], &[0xE9, 0])?;
    units(&rt, &[0xEF, 0xBF, 0xBF], &[0xFFFF, 0])?;
    units(&rt, &[0xF0, 0x90, 0x80, 0x80], &[0xD800, 0xDC00, 0])?;
    units(&rt, &[0xF4, 0x8F, 0xBF, 0xBF], &[0xDBFF, 0xDFFF, 0])
}

#[test]
fn bytes_that_are_not_utf8(rt: HostRuntime) {
    refused(&rt, &[0x80], Number::Text);
    refused(&rt, &[0xC0, 0x80], Number::Text);
    refused(&rt, &[0xC1, 0xBF], Number::Text);
    refused(&rt, &[0xE0, 0x9F, 0xBF], Number::Text);
    refused(&rt, &[0xED, 0xA0, 0x80], Number::Text);
    refused(&rt, &[0xF0, 0x8F, 0xBF, 0xBF], Number::Text);
    refused(&rt, &[0xF4, 0x90, 0x80, 0x80], Number::Text);
    refused(&rt, &[0xF5, 0x80, 0x80, 0x80], Number::Text);
    refused(&rt, &[0xC3], Number::Text);
    refused(&rt, &[0x41, 0xE2, 0x82], Number::Text);
}

#[test]
fn at_most_256_bytes(rt: HostRuntime) -> Result<(), Fail> {
    let long = [0x41u8; 257];
    refused(&rt, &long, Number::Range);
    refused(&rt, &[0xFFu8; 257], Number::Range);
    assert_eq!(rt; Label::new(&long[1..])?.units().len(), 257);
    Ok(())
}

// The record of the label whose bytes are C3 A9.
#[test]
fn a_label_as_a_record(rt: HostRuntime) -> Result<(), Fail> {
    let label = Label::new(&[0xC3, 0xA9])?;
    let mut bytes = [0u8; 8];
    let mut list = ListBytes::new(&mut bytes)?;
    list.begin_event(label.units())?;
    assert!(rt; list.list() == [1, 0x00, 0x05, 0x01, 0x00, 0xE9, 0x00, 0x00].as_slice());
    Ok(())
}
